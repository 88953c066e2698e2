// One step of the machine, and a whole call with a budget. Ledger, words and control block stay parameters beside one another, here and
// in memory.rt: a struct of them would need a clause such as `KeepsReferences` of replay in each contract, beside what it says now.
ghost use Rattle.std.specs.Prelude.{◌≡◌};
ghost use Rattle.word.specs.Word.{link_bits};
ghost use Rattle.machine.specs.Memory.{memory};
ghost use Rattle.machine.specs.declared.types.Event.TheVariants.{Nothing};
ghost use Rattle.machine.specs.Exec.{answer_event, hypervisor_advance, guest_advance, expand_did, expand_of, started, start_of, hypervisor_did, perform_hypervisor, guest_did, guest_access, perform_guest, perform_mask, guest_start_of, world, advanced, perform_side, replied, hand_back, advance_of, is_answer, ran, run_of};

use crate::memory::{self, zero_page};
use crate::types::{Advance, Event, Finish, GuestStart, Part, Side, Sides, Start, Step};
use calls::clear_mask::{clear_mask, guest_due, guest_reply};
use calls::guest::{service, tell};
use calls::hypervisor;
use calls::records::is_clearing;
use calls::types::{Access, Domain, Guest, GuestOutcome, Next, Outcome};
use word::Port;

// The answer that a side's call or reply gives, if it gives one.
pub fn answer_event(side: Side, next: Next) -> Event
    ensures { result ≡ answer_event side next }
{
    let Next::Answer(answer, count) = next else {
        return Event::Nothing;
    };
    match side {
        Side::Hypervisor => Event::HypervisorAnswer(answer, count),
        Side::Guest => Event::GuestAnswer(answer, count),
    }
}

// A part with no access before it.
fn at_once<O: Drop>(outcome: O) -> Part<O>
    ensures { (result.outcome ≡ outcome) × (result.access ≡ Nothing) }
{
    Part {
        outcome,
        access: Event::Nothing,
    }
}

// The step of a side's part. The two stay apart: a trait over the outcomes would be longer than both.
pub fn hypervisor_advance(part: Part<Outcome>, guest: Guest) -> Advance
    ensures { result ≡ hypervisor_advance part guest }
{
    Advance {
        sides: Sides {
            domain: part.outcome.domain,
            guest,
        },
        access: part.access,
        answer: answer_event(Side::Hypervisor, part.outcome.next),
    }
}

pub fn guest_advance(part: Part<GuestOutcome>, domain: Domain) -> Advance
    ensures { result ≡ guest_advance part domain }
{
    Advance {
        sides: Sides {
            domain,
            guest: part.outcome.guest,
        },
        access: part.access,
        answer: answer_event(Side::Guest, part.outcome.next),
    }
}

// An expand_array that adds a page zeroes it.
#[tactic(auto, unfolding(crate::specs::Exec::expand_of))]
pub fn expand(domain: Domain, words: &mut [u32], frame: u64, frames: u64) -> Outcome
    ensures { expand_did result words.new ≡ expand_of link_bits domain words.old frame frames }
{
    let outcome = hypervisor::expand_array(domain, frame, frames);
    if domain.pages < outcome.domain.pages {
        zero_page(words, domain.pages);
    }
    outcome
}

// A hypervisor's call starts.
#[tactic(auto, unfolding(crate::specs::Exec::start_of))]
pub fn start(domain: Domain, ledger: &mut [u16], words: &mut [u32], start: Start) -> Outcome
    ensures { started result ledger.new words.new ≡ start_of link_bits domain ledger.old words.old start }
{
    match start {
        Start::InitControl(vcpu, frame, frames, offset) => {
            hypervisor::init_control(domain, vcpu, frame, frames, offset)
        }
        Start::ExpandArray(frame, frames) => expand(domain, words, frame, frames),
        Start::Bind(port) => hypervisor::bind(domain, ledger, port),
        Start::Close(port) => hypervisor::close(domain, ledger, port),
        Start::SetPriority(port, priority) => {
            hypervisor::set_priority(domain, ledger, port, priority)
        }
        Start::Raise(port) => hypervisor::raise(domain, ledger, port),
        Start::Unmask(port) => hypervisor::unmask(domain, ledger, port),
    }
}

// The access that a domain's call waits for is made and replied to; a reply of 0 alone where no call is under way.
#[tactic(auto, unfolding(crate::specs::Exec::perform_hypervisor))]
pub fn perform_hypervisor(
    domain: Domain,
    ledger: &mut [u16],
    words: &mut [u32],
    block: &mut [u32],
) -> Part<Outcome>
    ensures { hypervisor_did result ledger.new (memory words.new block.new) ≡ perform_hypervisor link_bits domain ledger.old (memory words.old block.old) }
{
    let Next::Access(access) = hypervisor::due(domain) else {
        return at_once(hypervisor::reply(domain, ledger, 0));
    };
    let seen = memory::perform(words, block, access);
    Part {
        outcome: hypervisor::reply(domain, ledger, seen),
        access: Event::HypervisorAccess(domain.call, access, seen),
    }
}

// A guest's access as an event: the clear_mask's while one is under way, else the service's.
#[tactic(auto, unfolding(crate::specs::Exec::guest_access))]
pub fn guest_access(guest: Guest, access: Access, seen: u32) -> Event
    ensures { result ≡ guest_access guest access seen }
{
    if is_clearing(guest.clear.stage) {
        return Event::ClearAccess(guest.clear, access, seen);
    }
    Event::GuestAccess(guest.call, access, seen)
}

// The access that a guest waits for is made and replied to; a reply of 0 alone where neither a service nor a clear_mask is under
// way.
#[tactic(auto, unfolding(crate::specs::Exec::perform_guest))]
pub fn perform_guest(guest: Guest, words: &mut [u32], block: &mut [u32]) -> Part<GuestOutcome>
    ensures { guest_did result (memory words.new block.new) ≡ perform_guest link_bits guest (memory words.old block.old) }
{
    let Next::Access(access) = guest_due(guest) else {
        return at_once(guest_reply(guest, 0));
    };
    let seen = memory::perform(words, block, access);
    Part {
        outcome: guest_reply(guest, seen),
        access: guest_access(guest, access, seen),
    }
}

// A mask: its access is made at once.
#[tactic(auto, unfolding(crate::specs::Exec::perform_mask))]
pub fn mask(guest: Guest, words: &mut [u32], block: &mut [u32], port: Port) -> Part<GuestOutcome>
    ensures { guest_did result (memory words.new block.new) ≡ perform_mask link_bits guest (memory words.old block.old) port }
{
    match calls::guest::mask(port, guest.words) {
        Err(refused) => at_once(GuestOutcome {
            guest,
            next: Next::Answer(refused.answer, refused.count),
        }),
        Ok(made) => {
            let seen = memory::perform(words, block, made.access);
            Part {
                outcome: GuestOutcome {
                    guest,
                    next: Next::Answer(made.answer, made.count),
                },
                access: Event::MaskAccess(made.access, seen),
            }
        }
    }
}

// A guest's call starts; a mask is made whole.
#[tactic(auto, unfolding(crate::specs::Exec::guest_start_of))]
pub fn guest_start(
    guest: Guest,
    words: &mut [u32],
    block: &mut [u32],
    start: GuestStart,
) -> Part<GuestOutcome>
    ensures { guest_did result (memory words.new block.new) ≡ guest_start_of link_bits guest (memory words.old block.old) start }
{
    match start {
        GuestStart::Service => at_once(service(guest)),
        GuestStart::Mask(port) => mask(guest, words, block, port),
        GuestStart::ClearMask(port) => at_once(clear_mask(guest, port)),
        GuestStart::Tell(count) => at_once(tell(guest, count)),
    }
}

// One step.
#[tactic(auto, unfolding(crate::specs::Exec::advance_of))]
pub fn advance(
    sides: Sides,
    ledger: &mut [u16],
    words: &mut [u32],
    block: &mut [u32],
    step: Step,
) -> Advance
    ensures { advanced result ledger.new (memory words.new block.new) ≡ advance_of link_bits (world sides ledger.old (memory words.old block.old)) step }
{
    match step {
        Step::Hypervisor(call) => {
            let outcome = start(sides.domain, ledger, words, call);
            hypervisor_advance(at_once(outcome), sides.guest)
        }
        Step::Guest(call) => {
            let part = guest_start(sides.guest, words, block, call);
            guest_advance(part, sides.domain)
        }
        Step::Perform(side) => perform_side(sides, ledger, words, block, side),
        Step::HandBack(side, word) => hand_back(sides, ledger, side, word),
    }
}

// The access that a side's call waits for, with its reply.
#[tactic(auto, unfolding(crate::specs::Exec::perform_side))]
pub fn perform_side(
    sides: Sides,
    ledger: &mut [u16],
    words: &mut [u32],
    block: &mut [u32],
    side: Side,
) -> Advance
    ensures { advanced result ledger.new (memory words.new block.new) ≡ perform_side link_bits (world sides ledger.old (memory words.old block.old)) side }
{
    match side {
        Side::Hypervisor => {
            let part = perform_hypervisor(sides.domain, ledger, words, block);
            hypervisor_advance(part, sides.guest)
        }
        Side::Guest => guest_advance(perform_guest(sides.guest, words, block), sides.domain),
    }
}

// A side's reply alone, with any word.
#[tactic(auto, unfolding(crate::specs::Exec::hand_back))]
pub fn hand_back(sides: Sides, ledger: &mut [u16], side: Side, word: u32) -> Advance
    ensures { replied result ledger.new ≡ hand_back link_bits sides.domain sides.guest ledger.old side word }
{
    match side {
        Side::Hypervisor => {
            let outcome = hypervisor::reply(sides.domain, ledger, word);
            hypervisor_advance(at_once(outcome), sides.guest)
        }
        Side::Guest => guest_advance(at_once(guest_reply(sides.guest, word)), sides.domain),
    }
}

// Whether an event is an answer.
pub fn is_answer(event: Event) -> bool
    ensures { result ≡ is_answer event }
{
    matches!(
        event,
        Event::HypervisorAnswer(_, _) | Event::GuestAnswer(_, _)
    )
}

// A side's accesses until an answer comes, at most `budget` of them: the records afterwards, and the answer, which is
// `Nothing` where the budget is spent.
pub fn run(
    sides: Sides,
    ledger: &mut [u16],
    words: &mut [u32],
    block: &mut [u32],
    side: Side,
    budget: u32,
) -> Finish
    ensures { ran (world result.sides ledger.new (memory words.new block.new)) result.answer ≡ run_of link_bits budget (world sides ledger.old (memory words.old block.old)) side }
{
    let mut current = sides;
    for turn in 0..budget {
        let advance = perform_side(current, ledger, words, block, side);
        current = advance.sides;
        if is_answer(advance.answer) {
            return Finish {
                sides: current,
                answer: advance.answer,
            };
        }
    }
    Finish {
        sides: current,
        answer: Event::Nothing,
    }
}
