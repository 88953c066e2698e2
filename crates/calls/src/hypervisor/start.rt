// How a hypervisor's call starts: the refusals of each call in document 01's order, and what an accepted call begins with.
ghost use Rattle.std.specs.Prelude.{◌≡◌};
ghost use Rattle.word.specs.Word.{link_bits};
ghost use Rattle.calls.specs.Hypervisor.{first_access, accept_port, is_offset, accept_init, accept_expand, begin_bind, begin_close, begin_priority, begin_link};

use crate::records::{call_at, in_array, is_free, is_port, page_limit};
use crate::types::{Answer, Call, Owner, Stage};
use word::entry::{bound_entry, closed_entry, is_bound, with_priority};
use word::{Port, Priority, Queue};

// What an accepted call on a port begins with: a call under way, or an entry changed at once and no access.
#[derive(Clone, Copy, PartialEq, Eq)]
pub enum Begun {
    UnderWay(Call),
    Settled(u16),
}

// The call's first access is named.
pub fn first_access(owner: Owner, port: Port) -> Begun
    ensures { result ≡ first_access owner port }
{
    Begun::UnderWay(call_at(owner, Stage::First, port, Queue(0), 1))
}

// Where a control block may begin in its frame.
#[tactic(auto, unfolding(crate::specs::Hypervisor::is_offset))]
pub fn is_offset(offset: u32) -> bool
    ensures { result ≡ is_offset offset }
{
    offset % 8 == 0 && offset <= 4024
}

// init_control: 15, 17, 9, 11, 12. Here and below fields by themselves, and no domain: `evtchn_fifo` reads only these of a record in bytes.
#[tactic(auto, unfolding(crate::specs::Hypervisor::accept_init))]
pub fn accept_init(
    owner: Owner,
    given: bool,
    vcpu: u32,
    frame: u64,
    frames: u64,
    offset: u32,
) -> Result<(), Answer>
    ensures { result ≡ accept_init owner given vcpu frame frames offset }
{
    if !is_free(owner) {
        return Err(Answer::CallUnderWay);
    }
    if vcpu != 0 {
        return Err(Answer::BadVcpu);
    }
    if given {
        return Err(Answer::AlreadyGiven);
    }
    if frames <= frame {
        return Err(Answer::BadFrame);
    }
    if !is_offset(offset) {
        return Err(Answer::BadOffset);
    }
    Ok(())
}

// expand_array: 15, 10, 13, 11.
#[tactic(auto, unfolding(crate::specs::Hypervisor::accept_expand))]
pub fn accept_expand(
    owner: Owner,
    given: bool,
    pages: u32,
    frame: u64,
    frames: u64,
) -> Result<(), Answer>
    ensures { result ≡ accept_expand link_bits owner given pages frame frames }
{
    if !is_free(owner) {
        return Err(Answer::CallUnderWay);
    }
    if !given {
        return Err(Answer::NotGiven);
    }
    if page_limit() <= pages {
        return Err(Answer::TooManyPages);
    }
    if frames <= frame {
        return Err(Answer::BadFrame);
    }
    Ok(())
}

// The port's entry, past the refusals that every call on a port begins with: 15, 10, 3, 14.
#[tactic(auto, unfolding(crate::specs::Hypervisor::accept_port))]
pub fn accept_port(owner: Owner, given: bool, port: Port, found: Option<u16>) -> Result<u16, Answer>
    ensures { result ≡ accept_port link_bits owner given port found }
{
    if !is_free(owner) {
        return Err(Answer::CallUnderWay);
    }
    if !given {
        return Err(Answer::NotGiven);
    }
    if !is_port(port) {
        return Err(Answer::BadPort);
    }
    found.ok_or(Answer::NoEntry)
}

// bind: 15, 10, 3, 14, 5; 7 comes with the reply. Outside the array it is bound at once.
#[tactic(auto, unfolding(crate::specs::Hypervisor::begin_bind))]
pub fn begin_bind(
    owner: Owner,
    given: bool,
    pages: u32,
    port: Port,
    found: Option<u16>,
) -> Result<Begun, Answer>
    ensures { result ≡ begin_bind link_bits owner given pages port found }
{
    let entry = accept_port(owner, given, port, found)?;
    if is_bound(entry) {
        return Err(Answer::AlreadyBound);
    }
    if in_array(pages, port) {
        return Ok(first_access(Owner::Bind, port));
    }
    Ok(Begun::Settled(bound_entry(entry)))
}

// close: 15, 10, 3, 14, 4. Outside the array it is closed at once. No one function serves it and bind: refusal, owner and entry all
// differ, and two lines are shared.
#[tactic(auto, unfolding(crate::specs::Hypervisor::begin_close))]
pub fn begin_close(
    owner: Owner,
    given: bool,
    pages: u32,
    port: Port,
    found: Option<u16>,
) -> Result<Begun, Answer>
    ensures { result ≡ begin_close link_bits owner given pages port found }
{
    let entry = accept_port(owner, given, port, found)?;
    if !is_bound(entry) {
        return Err(Answer::NotBound);
    }
    if in_array(pages, port) {
        return Ok(first_access(Owner::Close, port));
    }
    Ok(Begun::Settled(closed_entry(entry)))
}

// set_priority: 15, 10, 3, 14, 8; bound or not.
#[tactic(auto, unfolding(crate::specs::Hypervisor::begin_priority))]
pub fn begin_priority(
    owner: Owner,
    given: bool,
    port: Port,
    priority: Priority,
    found: Option<u16>,
) -> Result<Begun, Answer>
    ensures { result ≡ begin_priority link_bits owner given port priority found }
{
    let entry = accept_port(owner, given, port, found)?;
    if 15 < priority.0 {
        return Err(Answer::BadPriority);
    }
    Ok(Begun::Settled(with_priority(entry, priority)))
}

// raise and unmask, of which starts is one: 15, 10, 3, 14, 4, 6.
#[tactic(auto, unfolding(crate::specs::Hypervisor::begin_link))]
pub fn begin_link(
    starts: Owner,
    owner: Owner,
    given: bool,
    pages: u32,
    port: Port,
    found: Option<u16>,
) -> Result<Begun, Answer>
    ensures { result ≡ begin_link link_bits starts owner given pages port found }
{
    let entry = accept_port(owner, given, port, found)?;
    if !is_bound(entry) {
        return Err(Answer::NotBound);
    }
    if !in_array(pages, port) {
        return Err(Answer::OutsideArray);
    }
    Ok(first_access(starts, port))
}
