// The line of an event. A tell's answer is an event too, and has no line: who logs leaves the events of tells out.
ghost use Rattle.std.specs.Prelude.{◌≡◌};
ghost use Rattle.access_log.specs.Line.{carries_port};
ghost use Rattle.access_log.specs.Event.{seen_in, access_line, code_line, answer_line, line_of};

use crate::line::Line;
use calls::answer::Code;
use calls::types::{Access, Answer};
use machine::types::{Event, Side};
use word::Port;

// The word that a line says was seen: none of a store.
#[tactic(auto, unfolding(crate::specs::Event::seen_in))]
fn seen_in(access: Access, seen: u32) -> u32
    ensures { result ≡ seen_in access seen }
{
    match access {
        Access::Store(_, _) => 0,
        _ => seen,
    }
}

// The line of an access that saw a word.
#[tactic(auto, unfolding(crate::specs::Event::access_line))]
pub fn access_line(side: Side, access: Access, seen: u32) -> Line
    ensures { result ≡ access_line side access seen }
{
    Line::Access(side, access, seen_in(access, seen))
}

fn carries_port(number: u32) -> bool
    ensures { result ≡ carries_port number }
{
    matches!(number, 19 | 21)
}

// The line of an answer by its number and value: 19 and 21 give their port, no other number has one.
pub fn code_line(side: Side, code: Code) -> Line
    ensures { result ≡ code_line side code }
{
    if carries_port(code.number) {
        Line::PortAnswer(side, code.number, Port(code.value))
    } else {
        Line::Answer(side, code.number)
    }
}

#[tactic(auto, unfolding(crate::specs::Event::answer_line))]
pub fn answer_line(side: Side, answer: Answer) -> Line
    ensures { result ≡ answer_line side answer }
{
    code_line(side, Code::from(answer))
}

#[tactic(auto, unfolding(crate::specs::Event::line_of))]
pub fn line_of(event: Event) -> Option<Line>
    ensures { result ≡ line_of event }
{
    match event {
        Event::Nothing => None,
        Event::HypervisorAccess(_, access, seen) => {
            Some(access_line(Side::Hypervisor, access, seen))
        }
        Event::GuestAccess(_, access, seen)
        | Event::ClearAccess(_, access, seen)
        | Event::MaskAccess(access, seen) => Some(access_line(Side::Guest, access, seen)),
        Event::HypervisorAnswer(answer, _) => Some(answer_line(Side::Hypervisor, answer)),
        Event::GuestAnswer(answer, _) => Some(answer_line(Side::Guest, answer)),
    }
}
