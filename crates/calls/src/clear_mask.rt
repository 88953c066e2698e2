// The guest's clear_mask, and her reply, which is the clear_mask's while one is under way.
ghost use Rattle.std.specs.Prelude.{◌≡◌};
ghost use Rattle.word.specs.Word.{link_bits};
ghost use Rattle.calls.specs.ClearMask.{clear_goes_on, clear_ends, reply_read, reply_cas, clear_staged, clear_due, clear_next, with_clear, clear_mask_start, clear_carried_out, guest_reply, guest_due_of};

use crate::guest::{accept_word, guest_answered, guest_next, service_reply};
use crate::records::{clear_at, clear_idle, is_clearing, one_more};
use crate::types::{Access, Answer, ClearCall, ClearStage, Guest, GuestOutcome, Next, Place};
use word::effect::{after_and, cas_taken};
use word::event::{all_but, has};
use word::{Flag, Port};

// All that a clear_mask's reply changes: its call; and the answer with its count where it ends, as in `Move`.
#[derive(Clone, Copy, PartialEq, Eq)]
pub struct ClearMove {
    pub call: ClearCall,
    pub answer: Answer,
    pub count: u32,
}

pub fn clear_goes_on(call: ClearCall) -> ClearMove
    ensures { result ≡ clear_goes_on call }
{
    ClearMove {
        call,
        answer: Answer::Done,
        count: 0,
    }
}

pub fn clear_ends(answer: Answer, count: u32) -> ClearMove
    ensures { result ≡ clear_ends answer count }
{
    ClearMove {
        call: clear_idle(),
        answer,
        count,
    }
}

// The word read: 0 unless MASKED; 35 if PENDING or BUSY; else one cas.
#[tactic(auto, unfolding(crate::specs::ClearMask::reply_read))]
pub fn reply_read(call: ClearCall, seen: u32) -> ClearMove
    ensures { result ≡ reply_read call seen }
{
    if !has(seen, Flag::Masked) {
        return clear_ends(Answer::Done, call.count);
    }
    if has(seen, Flag::Pending) || has(seen, Flag::Busy) {
        return clear_ends(Answer::CallUnmask, call.count);
    }
    let count = one_more(call.count);
    clear_goes_on(clear_at(ClearStage::Cas, call.port, seen, count))
}

// The cas: 0 if taken, else 35.
#[tactic(auto, unfolding(crate::specs::ClearMask::reply_cas))]
pub fn reply_cas(call: ClearCall, seen: u32) -> ClearMove
    ensures { result ≡ reply_cas call seen }
{
    if cas_taken(seen, call.word) {
        return clear_ends(Answer::Done, call.count);
    }
    clear_ends(Answer::CallUnmask, call.count)
}

// The reply of the clear_mask's stage.
#[tactic(auto, unfolding(crate::specs::ClearMask::clear_staged))]
pub fn clear_staged(call: ClearCall, seen: u32) -> ClearMove
    ensures { result ≡ clear_staged call seen }
{
    match call.stage {
        ClearStage::None => clear_ends(Answer::NoCall, 0),
        ClearStage::Read => reply_read(call, seen),
        ClearStage::Cas => reply_cas(call, seen),
    }
}

// The access that a clear_mask waits for.
#[tactic(auto, unfolding(crate::specs::ClearMask::clear_due))]
pub fn clear_access(call: ClearCall) -> Access
    ensures { result ≡ clear_due call }
{
    let place = Place::Word(call.port);
    match call.stage {
        ClearStage::None | ClearStage::Read => Access::Read(place),
        ClearStage::Cas => {
            let new = after_and(call.word, all_but(Flag::Masked));
            Access::Cas(place, call.word, new)
        }
    }
}

// The access that is due where a clear_mask is under way, else its answer with the count.
#[tactic(auto, unfolding(crate::specs::ClearMask::clear_next))]
pub fn clear_next(call: ClearCall, answer: Answer, count: u32) -> Next
    ensures { result ≡ clear_next call answer count }
{
    if is_clearing(call.stage) {
        return Next::Access(clear_access(call));
    }
    Next::Answer(answer, count)
}

// The guest with another clear_mask under way, or none.
pub fn with_clear(guest: Guest, clear: ClearCall) -> Guest
    ensures { result ≡ with_clear guest clear }
{
    Guest { clear, ..guest }
}

// clear_mask: 15 if one is under way, then as mask is: 3, 6 by her number of words; else its read.
#[tactic(auto, unfolding(crate::specs::ClearMask::clear_mask_start, crate::specs::Guest::accept_word))]
pub fn clear_mask(guest: Guest, port: Port) -> GuestOutcome
    ensures { result ≡ clear_mask_start link_bits guest port }
{
    if is_clearing(guest.clear.stage) {
        return guest_answered(guest, Answer::CallUnderWay);
    }
    if let Err(answer) = accept_word(port, guest.words) {
        return guest_answered(guest, answer);
    }
    GuestOutcome {
        guest: with_clear(guest, clear_at(ClearStage::Read, port, 0, 1)),
        next: Next::Access(Access::Read(Place::Word(port))),
    }
}

// The clear_mask's reply to the access that was named last.
pub fn clear_reply(guest: Guest, seen: u32) -> GuestOutcome
    ensures { result ≡ clear_carried_out guest (clear_staged guest.clear seen) }
{
    let step = clear_staged(guest.clear, seen);
    GuestOutcome {
        guest: with_clear(guest, step.call),
        next: clear_next(step.call, step.answer, step.count),
    }
}

// The guest's reply to the access that was named last: the clear_mask's while one is under way, else the service's.
#[tactic(auto, unfolding(crate::specs::ClearMask::guest_reply))]
pub fn guest_reply(guest: Guest, seen: u32) -> GuestOutcome
    ensures { result ≡ guest_reply link_bits guest seen }
{
    if is_clearing(guest.clear.stage) {
        return clear_reply(guest, seen);
    }
    service_reply(guest, seen)
}

// The access that the guest waits for: the clear_mask's, else the service's; 16 where neither is under way.
#[tactic(auto, unfolding(crate::specs::ClearMask::guest_due_of))]
pub fn guest_due(guest: Guest) -> Next
    ensures { result ≡ guest_due_of link_bits guest }
{
    if is_clearing(guest.clear.stage) {
        return Next::Access(clear_access(guest.clear));
    }
    guest_next(guest, Answer::NoCall, 0)
}
