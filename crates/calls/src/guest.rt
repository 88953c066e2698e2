// The guest's service with its reply, mask, tell.
ghost use Rattle.std.specs.Prelude.{◌≡◌};
ghost use Rattle.word.specs.Word.{link_bits};
ghost use Rattle.calls.specs.Guest.{is_serving, guest_goes_on, guest_ends, guest_named, bad_index, takes_index, reply_g0, reply_g2, reply_g3, reply_g4, guest_staged, service_queue, guest_due, guest_answered, guest_moved, guest_next, service_start, service_reply, accept_word, mask_of, tell_of};

use crate::records::{
    at_queue, guest_call_at, guest_idle, is_clearing, is_port, one_more, with_queue,
};
use crate::types::{
    Access, Answer, Guest, GuestCall, GuestOutcome, GuestStage, Made, Next, Place, Refused,
};
use word::event::{all_but, has, link, mask as mask_bit, unlink_operand};
use word::ready::{cleared, lowest, merged};
use word::{Flag, Port, Queue};

// All that a service's reply changes: one queue's head H (none where the queue is 16), the local bits, the call; and the
// answer with its count where the service ends. As in `Move`, queue 16 and an answer beside a call that stands need no `Option`.
#[derive(Clone, Copy, PartialEq, Eq)]
pub struct GuestMove {
    pub queue: Queue,
    pub head: u32,
    pub ready: u32,
    pub call: GuestCall,
    pub answer: Answer,
    pub count: u32,
}

#[tactic(auto, unfolding(crate::specs::Guest::is_serving))]
pub fn is_serving(stage: GuestStage) -> bool
    ensures { result ≡ is_serving stage }
{
    !matches!(stage, GuestStage::None)
}

// The service goes on; no head changes.
pub fn guest_goes_on(ready: u32, call: GuestCall) -> GuestMove
    ensures { result ≡ guest_goes_on ready call }
{
    GuestMove {
        queue: Queue(16),
        head: 0,
        ready,
        call,
        answer: Answer::Done,
        count: 0,
    }
}

// The service ends; no head changes.
pub fn guest_ends(ready: u32, answer: Answer, count: u32) -> GuestMove
    ensures { result ≡ guest_ends ready answer count }
{
    GuestMove {
        queue: Queue(16),
        head: 0,
        ready,
        call: guest_idle(),
        answer,
        count,
    }
}

// The service with another access named, on a queue and a port.
pub fn guest_named(call: GuestCall, stage: GuestStage, port: Port, queue: Queue) -> GuestCall
    ensures { result ≡ guest_named call stage port queue }
{
    guest_call_at(stage, port, queue, one_more(call.count))
}

// 18: H and the local bit of the queue become 0.
pub fn bad_index(call: GuestCall, ready: u32, queue: Queue) -> GuestMove
    ensures { result ≡ bad_index call ready queue }
{
    GuestMove {
        queue,
        head: 0,
        ready: cleared(ready, queue),
        call: guest_idle(),
        answer: Answer::BadIndex,
        count: call.count,
    }
}

// Here and below a call, local bits and a number of words are asked for, and no guest, who would be more than callers have to give.

// An index from H or HEAD: 18 where it is 0 or outside her words, else G2.
#[tactic(auto, unfolding(crate::specs::Guest::takes_index))]
pub fn takes_index(call: GuestCall, ready: u32, words: u32, queue: Queue, index: u32) -> GuestMove
    ensures { result ≡ takes_index call ready words queue index }
{
    if index == 0 || words <= index {
        return bad_index(call, ready, queue);
    }
    guest_goes_on(ready, guest_named(call, GuestStage::G2, Port(index), queue))
}

// G0: local bits are added; none gives 20. The lowest set bit is the queue, and head its H: G1 where that is 0.
#[tactic(auto, unfolding(crate::specs::Guest::reply_g0))]
pub fn reply_g0(call: GuestCall, ready: u32, words: u32, head: u32, seen: u32) -> GuestMove
    ensures { result ≡ reply_g0 call ready words head seen }
{
    let local = merged(ready, seen);
    if local == 0 {
        return guest_ends(local, Answer::NothingReady, call.count);
    }
    let queue = lowest(local);
    if head == 0 {
        return guest_goes_on(local, guest_named(call, GuestStage::G1, Port(0), queue));
    }
    takes_index(call, local, words, queue, head)
}

// G2: H becomes the LINK seen; where that is 0 the local bit clears.
#[tactic(auto, unfolding(crate::specs::Guest::reply_g2))]
pub fn reply_g2(call: GuestCall, ready: u32, seen: u32) -> GuestMove
    ensures { result ≡ reply_g2 link_bits call ready seen }
{
    let queue = call.queue;
    let head = link(seen).0;
    let next = guest_named(call, GuestStage::G3, call.port, queue);
    GuestMove {
        queue,
        head,
        ready: if head == 0 {
            cleared(ready, queue)
        } else {
            ready
        },
        call: next,
        answer: Answer::Done,
        count: 0,
    }
}

// G3: pending and not masked goes on at G4; else 21.
#[tactic(auto, unfolding(crate::specs::Guest::reply_g3))]
pub fn reply_g3(call: GuestCall, ready: u32, seen: u32) -> GuestMove
    ensures { result ≡ reply_g3 call ready seen }
{
    if !has(seen, Flag::Pending) || has(seen, Flag::Masked) {
        return guest_ends(ready, Answer::Taken(call.port), call.count);
    }
    guest_goes_on(
        ready,
        guest_named(call, GuestStage::G4, call.port, call.queue),
    )
}

// G4: 19 if the port was still pending, else 21.
#[tactic(auto, unfolding(crate::specs::Guest::reply_g4))]
pub fn reply_g4(call: GuestCall, ready: u32, seen: u32) -> GuestMove
    ensures { result ≡ reply_g4 call ready seen }
{
    if has(seen, Flag::Pending) {
        return guest_ends(ready, Answer::HandedOver(call.port), call.count);
    }
    guest_ends(ready, Answer::Taken(call.port), call.count)
}

// The reply of the service's stage, where head is the H of its queue.
#[tactic(auto, unfolding(crate::specs::Guest::guest_staged))]
pub fn guest_staged(call: GuestCall, ready: u32, words: u32, head: u32, seen: u32) -> GuestMove
    ensures { result ≡ guest_staged link_bits call ready words head seen }
{
    match call.stage {
        GuestStage::None => guest_ends(ready, Answer::NoCall, 0),
        GuestStage::G0 => reply_g0(call, ready, words, head, seen),
        GuestStage::G1 => takes_index(call, ready, words, call.queue, seen),
        GuestStage::G2 => reply_g2(call, ready, seen),
        GuestStage::G3 => reply_g3(call, ready, seen),
        GuestStage::G4 => reply_g4(call, ready, seen),
    }
}

// The queue whose head G0's reply looks at.
#[tactic(auto, unfolding(crate::specs::Guest::service_queue))]
pub fn service_queue(ready: u32, seen: u32) -> Queue
    ensures { result ≡ service_queue ready seen }
{
    lowest(merged(ready, seen))
}

// The access that a service waits for.
#[tactic(auto, unfolding(crate::specs::Guest::guest_due))]
pub fn guest_access(call: GuestCall) -> Access
    ensures { result ≡ guest_due link_bits call }
{
    match call.stage {
        GuestStage::None => Access::Read(Place::Ready),
        GuestStage::G0 => Access::Swap(Place::Ready, 0),
        GuestStage::G1 => Access::Read(Place::Head(call.queue)),
        GuestStage::G2 => Access::And(Place::Word(call.port), unlink_operand()),
        GuestStage::G3 => Access::Read(Place::Word(call.port)),
        GuestStage::G4 => Access::And(Place::Word(call.port), all_but(Flag::Pending)),
    }
}

// The access that is due where a service is under way, else the answer with its count.
#[tactic(auto, unfolding(crate::specs::Guest::guest_next))]
pub fn guest_next(guest: Guest, answer: Answer, count: u32) -> Next
    ensures { result ≡ guest_next link_bits guest answer count }
{
    if is_serving(guest.call.stage) {
        return Next::Access(guest_access(guest.call));
    }
    Next::Answer(answer, count)
}

// An answer given at once: the record stays, and nothing is counted.
pub(crate) fn guest_answered(guest: Guest, answer: Answer) -> GuestOutcome
    ensures { result ≡ guest_answered guest answer }
{
    GuestOutcome {
        guest,
        next: Next::Answer(answer, 0),
    }
}

// The guest after a stage.
#[tactic(auto, unfolding(crate::specs::Guest::guest_moved))]
pub fn guest_moved(guest: Guest, step: GuestMove) -> Guest
    ensures { result ≡ guest_moved guest step }
{
    Guest {
        heads: with_queue(guest.heads, step.queue, step.head),
        ready: step.ready,
        call: step.call,
        ..guest
    }
}

// service: 15, by a clear_mask under way or a service; else G0.
#[tactic(auto, unfolding(crate::specs::Guest::service_start))]
pub fn service(guest: Guest) -> GuestOutcome
    ensures { result ≡ service_start link_bits guest }
{
    if is_clearing(guest.clear.stage) || is_serving(guest.call.stage) {
        return guest_answered(guest, Answer::CallUnderWay);
    }
    let call = guest_call_at(GuestStage::G0, Port(0), Queue(0), 1);
    let begun = Guest { call, ..guest };
    GuestOutcome {
        guest: begun,
        next: guest_next(begun, Answer::Done, 0),
    }
}

// The service's reply to the access that was named last: 16, 18.
#[tactic(auto, unfolding(crate::specs::Guest::service_reply))]
pub fn service_reply(guest: Guest, seen: u32) -> GuestOutcome
    ensures { result ≡ service_reply link_bits guest seen }
{
    if !is_serving(guest.call.stage) {
        return guest_answered(guest, Answer::NoCall);
    }
    let head = at_queue(guest.heads, service_queue(guest.ready, seen));
    let step = guest_staged(guest.call, guest.ready, guest.words, head, seen);
    let after = guest_moved(guest, step);
    GuestOutcome {
        guest: after,
        next: guest_next(after, step.answer, step.count),
    }
}

// The refusals that a mask and a clear_mask share: 3, then 6 by her number of words.
#[tactic(auto, unfolding(crate::specs::Guest::accept_word))]
pub(crate) fn accept_word(port: Port, words: u32) -> Result<(), Answer>
    ensures { result ≡ accept_word link_bits port words }
{
    if !is_port(port) {
        return Err(Answer::BadPort);
    }
    if words <= port.0 {
        return Err(Answer::OutsideArray);
    }
    Ok(())
}

// mask: 3, then 6 by her number of words; else its access with answer 0. It needs no record and takes no reply.
#[tactic(auto, unfolding(crate::specs::Guest::mask_of, crate::specs::Guest::accept_word))]
pub fn mask(port: Port, words: u32) -> Result<Made, Refused>
    ensures { result ≡ mask_of link_bits port words }
{
    if let Err(answer) = accept_word(port, words) {
        return Err(Refused { answer, count: 0 });
    }
    Ok(Made {
        access: Access::Or(Place::Word(port), mask_bit(Flag::Masked)),
        answer: Answer::Done,
        count: 1,
    })
}

// tell: the number of words becomes the larger of old and told.
#[tactic(auto, unfolding(crate::specs::Guest::tell_of))]
pub fn tell(guest: Guest, words: u32) -> GuestOutcome
    ensures { result ≡ tell_of guest words }
{
    if guest.words < words {
        return guest_answered(Guest { words, ..guest }, Answer::Done);
    }
    guest_answered(guest, Answer::Done)
}
