// The hypervisor's seven calls and its reply, on a domain's record by value and a lent ledger.
ghost use Rattle.std.specs.Prelude.{◌≡◌};
ghost use Rattle.word.specs.Word.{link_bits};
ghost use Rattle.calls.specs.Hypervisor.{turn, answered, view_of, moved, next_of, due_of, started, init_control, expand_array, bind_start, close_start, set_priority, raise_start, unmask_start, reply_of};

pub mod stage;
pub mod start;

use crate::records::{at_queue, entry_at, is_free, one_more, put_entry, with_call, with_queue};
use crate::types::{Answer, Domain, Next, Outcome, Owner};
use stage::{Move, View};
use start::Begun;
use word::entry::{last_queue, priority_of, queue_of};
use word::event::link_bits;
use word::{Port, Priority};

// An answer given at once: the record stays, and nothing is counted.
pub fn answered(domain: Domain, answer: Answer) -> Outcome
    ensures { result ≡ answered domain answer }
{
    Outcome {
        domain,
        next: Next::Answer(answer, 0),
    }
}

// The access that is due where a call is under way, else the answer with its count.
#[tactic(auto, unfolding(crate::specs::Hypervisor::next_of))]
pub fn next_of(domain: Domain, answer: Answer, count: u32) -> Next
    ensures { result ≡ next_of link_bits domain answer count }
{
    let call = domain.call;
    if is_free(call.owner) {
        return Next::Answer(answer, count);
    }
    Next::Access(stage::due(call, at_queue(domain.tails, call.queue)))
}

// The access that a domain's call under way waits for; 16 where none is.
pub fn due(domain: Domain) -> Next
    ensures { result ≡ due_of link_bits domain }
{
    next_of(domain, Answer::NoCall, 0)
}

// A start is carried out.
#[tactic(auto, unfolding(crate::specs::Hypervisor::started))]
pub fn started(
    domain: Domain,
    ledger: &mut [u16],
    port: Port,
    begin: Result<Begun, Answer>,
) -> Outcome
    ensures { turn result ledger.new ≡ started link_bits domain ledger.old port begin }
{
    match begin {
        Err(answer) => answered(domain, answer),
        Ok(Begun::UnderWay(call)) => {
            let begun = with_call(domain, call);
            Outcome {
                domain: begun,
                next: next_of(begun, Answer::Done, 0),
            }
        }
        Ok(Begun::Settled(entry)) => {
            put_entry(ledger, port, entry);
            answered(domain, Answer::Done)
        }
    }
}

#[tactic(auto, unfolding(crate::specs::Hypervisor::init_control))]
pub fn init_control(domain: Domain, vcpu: u32, frame: u64, frames: u64, offset: u32) -> Outcome
    ensures { result ≡ init_control link_bits domain vcpu frame frames offset }
{
    match start::accept_init(domain.call.owner, domain.given, vcpu, frame, frames, offset) {
        Err(answer) => answered(domain, answer),
        Ok(()) => answered(
            Domain {
                given: true,
                ..domain
            },
            Answer::LinkBits(link_bits()),
        ),
    }
}

#[tactic(auto, unfolding(crate::specs::Hypervisor::expand_array))]
pub fn expand_array(domain: Domain, frame: u64, frames: u64) -> Outcome
    ensures { result ≡ expand_array link_bits domain frame frames }
{
    match start::accept_expand(domain.call.owner, domain.given, domain.pages, frame, frames) {
        Err(answer) => answered(domain, answer),
        Ok(()) => {
            let pages = one_more(domain.pages);
            answered(Domain { pages, ..domain }, Answer::Done)
        }
    }
}

#[tactic(auto, unfolding(crate::specs::Hypervisor::bind_start))]
pub fn bind(domain: Domain, ledger: &mut [u16], port: Port) -> Outcome
    ensures { turn result ledger.new ≡ bind_start link_bits domain ledger.old port }
{
    let found = entry_at(ledger, port);
    let begin = start::begin_bind(domain.call.owner, domain.given, domain.pages, port, found);
    started(domain, ledger, port, begin)
}

#[tactic(auto, unfolding(crate::specs::Hypervisor::close_start))]
pub fn close(domain: Domain, ledger: &mut [u16], port: Port) -> Outcome
    ensures { turn result ledger.new ≡ close_start link_bits domain ledger.old port }
{
    let found = entry_at(ledger, port);
    let begin = start::begin_close(domain.call.owner, domain.given, domain.pages, port, found);
    started(domain, ledger, port, begin)
}

#[tactic(auto, unfolding(crate::specs::Hypervisor::set_priority))]
pub fn set_priority(domain: Domain, ledger: &mut [u16], port: Port, priority: Priority) -> Outcome
    ensures { turn result ledger.new ≡ set_priority link_bits domain ledger.old port priority }
{
    let found = entry_at(ledger, port);
    let begin = start::begin_priority(domain.call.owner, domain.given, port, priority, found);
    started(domain, ledger, port, begin)
}

#[tactic(auto, unfolding(crate::specs::Hypervisor::raise_start))]
pub fn raise(domain: Domain, ledger: &mut [u16], port: Port) -> Outcome
    ensures { turn result ledger.new ≡ raise_start link_bits domain ledger.old port }
{
    let begin = start::begin_link(
        Owner::Raise,
        domain.call.owner,
        domain.given,
        domain.pages,
        port,
        entry_at(ledger, port),
    );
    started(domain, ledger, port, begin)
}

#[tactic(auto, unfolding(crate::specs::Hypervisor::unmask_start))]
pub fn unmask(domain: Domain, ledger: &mut [u16], port: Port) -> Outcome
    ensures { turn result ledger.new ≡ unmask_start link_bits domain ledger.old port }
{
    let begin = start::begin_link(
        Owner::Unmask,
        domain.call.owner,
        domain.given,
        domain.pages,
        port,
        entry_at(ledger, port),
    );
    started(domain, ledger, port, begin)
}

// What R2 looks at.
#[tactic(auto, unfolding(crate::specs::Hypervisor::view_of))]
pub fn view_of(domain: Domain, entry: u16) -> View
    ensures { result ≡ view_of domain entry }
{
    View {
        tail: at_queue(domain.tails, queue_of(priority_of(entry))),
        former: at_queue(domain.tails, last_queue(entry)),
    }
}

// The domain after a stage.
#[tactic(auto, unfolding(crate::specs::Hypervisor::moved))]
pub fn moved(domain: Domain, step: Move) -> Domain
    ensures { result ≡ moved domain step }
{
    Domain {
        tails: with_queue(domain.tails, step.queue, step.tail),
        call: step.call,
        ..domain
    }
}

// The reply to the access that was named last: 16, then 14.
#[tactic(auto, unfolding(crate::specs::Hypervisor::reply_of))]
pub fn reply(domain: Domain, ledger: &mut [u16], seen: u32) -> Outcome
    ensures { turn result ledger.new ≡ reply_of link_bits domain ledger.old seen }
{
    let call = domain.call;
    if is_free(call.owner) {
        return answered(domain, Answer::NoCall);
    }
    let Some(entry) = entry_at(ledger, call.port) else {
        return answered(domain, Answer::NoEntry);
    };
    let step = stage::staged(call, entry, view_of(domain, entry), seen);
    put_entry(ledger, call.port, step.entry);
    let after = moved(domain, step);
    Outcome {
        domain: after,
        next: next_of(after, step.answer, step.count),
    }
}
