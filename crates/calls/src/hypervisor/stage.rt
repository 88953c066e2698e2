// What the word seen makes of a hypervisor's call under way: R1 to R6, U1, a bind's read and a close's and. Each stage is a
// function of the call, the port's ledger entry and what R2 looks at in the record, and gives all that changes.
ghost use Rattle.std.specs.Prelude.{◌≡◌};
ghost use Rattle.word.specs.Word.{link_bits};
ghost use Rattle.calls.specs.Hypervisor.{goes_on, ends, ends_tailed, named, reply_r1, reply_u1, reply_bind, reply_close, reply_first, stale_queue, after_r2, reply_r2, comparing, clearing, reply_r3, after_first_cas, after_later_cas, reply_r4, reply_set_busy, reply_clear_busy, reply_r5, reply_r6, staged, due_first, linking_word, due};

use crate::records::{call_at, idle_call, one_more};
use crate::types::{Access, Answer, Call, Owner, Place, Stage};
use word::effect::{after_and, after_or, cas_taken};
use word::entry::{
    bound_entry, closed_entry, has_been_linked, last_queue, linked_entry, priority_of, queue_of,
};
use word::event::{all_but, has, mask, with_link};
use word::ready::{is_ready, ready_mask};
use word::{Flag, Port, Queue};

// What R2's reply reads of the record beside its call: the tail of the port's queue, and that of its last queue.
#[derive(Clone, Copy, PartialEq, Eq)]
pub struct View {
    pub tail: u32,
    pub former: u32,
}

// All that a reply changes: one queue's tail (none where the queue is 16), the entry, the call; and the answer with its
// count where the call ends. Queue 16 is no `Option`: a number that is none of the sixteen changes nothing in `moved` as in any record,
// so that moves with a tail and without have one law. Nor is the answer: a call that stands says by itself that none is given.
#[derive(Clone, Copy, PartialEq, Eq)]
pub struct Move {
    pub queue: Queue,
    pub tail: u32,
    pub entry: u16,
    pub call: Call,
    pub answer: Answer,
    pub count: u32,
}

// The call goes on; no tail changes.
pub fn goes_on(entry: u16, call: Call) -> Move
    ensures { result ≡ goes_on entry call }
{
    Move {
        queue: Queue(16),
        tail: 0,
        entry,
        call,
        answer: Answer::Done,
        count: 0,
    }
}

// The call ends; no tail changes.
pub fn ends(entry: u16, answer: Answer, count: u32) -> Move
    ensures { result ≡ ends entry answer count }
{
    Move {
        queue: Queue(16),
        tail: 0,
        entry,
        call: idle_call(),
        answer,
        count,
    }
}

// The call ends, and its port is its queue's tail.
pub fn ends_tailed(entry: u16, call: Call, answer: Answer) -> Move
    ensures { result ≡ ends_tailed entry call answer }
{
    Move {
        queue: call.queue,
        tail: call.port.0,
        entry,
        call: idle_call(),
        answer,
        count: call.count,
    }
}

// The call with another access named, on a queue.
pub fn named(call: Call, stage: Stage, queue: Queue) -> Call
    ensures { result ≡ named call stage queue }
{
    call_at(call.owner, stage, call.port, queue, one_more(call.count))
}

// R1: masked or linked ends the call; else R2.
#[tactic(auto, unfolding(crate::specs::Hypervisor::reply_r1))]
pub fn reply_r1(call: Call, entry: u16, seen: u32) -> Move
    ensures { result ≡ reply_r1 call entry seen }
{
    if has(seen, Flag::Masked) || has(seen, Flag::Linked) {
        return ends(entry, Answer::Done, call.count);
    }
    goes_on(entry, named(call, Stage::R2, Queue(0)))
}

// U1: pending and not linked goes on at R2.
#[tactic(auto, unfolding(crate::specs::Hypervisor::reply_u1))]
pub fn reply_u1(call: Call, entry: u16, seen: u32) -> Move
    ensures { result ≡ reply_u1 call entry seen }
{
    if !has(seen, Flag::Pending) || has(seen, Flag::Linked) {
        return ends(entry, Answer::Done, call.count);
    }
    goes_on(entry, named(call, Stage::R2, Queue(0)))
}

// A bind's read: an old event that is still linked refuses it (7).
#[tactic(auto, unfolding(crate::specs::Hypervisor::reply_bind))]
pub fn reply_bind(call: Call, entry: u16, seen: u32) -> Move
    ensures { result ≡ reply_bind call entry seen }
{
    if has(seen, Flag::Linked) {
        return ends(entry, Answer::StillLinked, call.count);
    }
    ends(bound_entry(entry), Answer::Done, call.count)
}

// A close's and.
#[tactic(auto, unfolding(crate::specs::Hypervisor::reply_close))]
pub fn reply_close(call: Call, entry: u16) -> Move
    ensures { result ≡ reply_close call entry }
{
    ends(closed_entry(entry), Answer::Done, call.count)
}

// The owner's first access.
#[tactic(auto, unfolding(crate::specs::Hypervisor::reply_first))]
pub fn reply_first(call: Call, entry: u16, seen: u32) -> Move
    ensures { result ≡ reply_first call entry seen }
{
    match call.owner {
        Owner::None => ends(entry, Answer::NoCall, 0),
        Owner::Bind => reply_bind(call, entry, seen),
        Owner::Close => reply_close(call, entry),
        Owner::Raise => reply_r1(call, entry, seen),
        Owner::Unmask => reply_u1(call, entry, seen),
    }
}

// R2, the rule on a moved port: its last queue, where that still has the port as its tail and is another; else 16.
#[tactic(auto, unfolding(crate::specs::Hypervisor::stale_queue))]
pub fn stale_queue(entry: u16, port: Port, queue: Queue, former: u32) -> Queue
    ensures { result ≡ stale_queue entry port queue former }
{
    let last = last_queue(entry);
    if has_been_linked(entry) && last.0 != queue.0 && former == port.0 {
        return last;
    }
    Queue(16)
}

// After R2: R5 where the queue has no tail or the port itself as its tail, else R3.
#[tactic(auto, unfolding(crate::specs::Hypervisor::after_r2))]
pub fn after_r2(call: Call, queue: Queue, tail: u32) -> Call
    ensures { result ≡ after_r2 call queue tail }
{
    if tail == 0 || tail == call.port.0 {
        return named(call, Stage::R5, queue);
    }
    named(call, Stage::R3, queue)
}

// R2: the queue is the entry's priority now.
#[tactic(auto, unfolding(crate::specs::Hypervisor::reply_r2))]
pub fn reply_r2(call: Call, entry: u16, view: View, seen: u32) -> Move
    ensures { result ≡ reply_r2 call entry view seen }
{
    if has(seen, Flag::Linked) {
        return ends(entry, Answer::Done, call.count);
    }
    let queue = queue_of(priority_of(entry));
    Move {
        queue: stale_queue(entry, call.port, queue, view.former),
        tail: 0,
        entry: linked_entry(entry, queue),
        call: after_r2(call, queue, view.tail),
        answer: Answer::Done,
        count: 0,
    }
}

// A cas is named that compares with a word; tries counts the cas named, with this one.
pub fn comparing(call: Call, tries: u32, word: u32) -> Call
    ensures { result ≡ comparing call tries word }
{
    Call {
        stage: Stage::R4,
        word,
        tries,
        count: one_more(call.count),
        ..call
    }
}

// The and that clears BUSY is named; word is the latest word seen.
pub fn clearing(call: Call, word: u32) -> Call
    ensures { result ≡ clearing call word }
{
    Call {
        stage: Stage::ClearBusy,
        word,
        tries: 0,
        count: one_more(call.count),
        ..call
    }
}

// R3: a word without LINKED goes on at R5; else the first cas, of that very word.
#[tactic(auto, unfolding(crate::specs::Hypervisor::reply_r3))]
pub fn reply_r3(call: Call, entry: u16, seen: u32) -> Move
    ensures { result ≡ reply_r3 call entry seen }
{
    if !has(seen, Flag::Linked) {
        return goes_on(entry, named(call, Stage::R5, call.queue));
    }
    goes_on(entry, comparing(call, 1, seen))
}

// R4's first cas is not taken: R5 where the word seen lacks LINKED, else BUSY is set.
#[tactic(auto, unfolding(crate::specs::Hypervisor::after_first_cas))]
pub fn after_first_cas(call: Call, entry: u16, seen: u32) -> Move
    ensures { result ≡ after_first_cas call entry seen }
{
    if !has(seen, Flag::Linked) {
        return goes_on(entry, named(call, Stage::R5, call.queue));
    }
    goes_on(entry, named(call, Stage::SetBusy, call.queue))
}

// A later one is not taken: BUSY is cleared where the word seen lacks LINKED and after the fifth cas; else another cas.
#[tactic(auto, unfolding(crate::specs::Hypervisor::after_later_cas))]
pub fn after_later_cas(call: Call, entry: u16, seen: u32) -> Move
    ensures { result ≡ after_later_cas call entry seen }
{
    if !has(seen, Flag::Linked) || 5 <= call.tries {
        return goes_on(entry, clearing(call, seen));
    }
    goes_on(entry, comparing(call, call.tries + 1, seen))
}

// R4's cas: taken ends the call.
#[tactic(auto, unfolding(crate::specs::Hypervisor::reply_r4))]
pub fn reply_r4(call: Call, entry: u16, seen: u32) -> Move
    ensures { result ≡ reply_r4 call entry seen }
{
    if cas_taken(seen, call.word) {
        return ends_tailed(entry, call, Answer::Done);
    }
    if call.tries <= 1 {
        return after_first_cas(call, entry, seen);
    }
    after_later_cas(call, entry, seen)
}

// BUSY is set: the second cas compares with the word seen and BUSY.
#[tactic(auto, unfolding(crate::specs::Hypervisor::reply_set_busy))]
pub fn reply_set_busy(call: Call, entry: u16, seen: u32) -> Move
    ensures { result ≡ reply_set_busy call entry seen }
{
    if !has(seen, Flag::Linked) {
        return goes_on(entry, clearing(call, seen));
    }
    goes_on(entry, comparing(call, 2, after_or(seen, mask(Flag::Busy))))
}

// BUSY is cleared: R5 where the latest word seen lacks LINKED; else the link is abandoned.
#[tactic(auto, unfolding(crate::specs::Hypervisor::reply_clear_busy))]
pub fn reply_clear_busy(call: Call, entry: u16) -> Move
    ensures { result ≡ reply_clear_busy call entry }
{
    if has(call.word, Flag::Linked) {
        return ends_tailed(entry, call, Answer::LinkAbandoned);
    }
    goes_on(entry, named(call, Stage::R5, call.queue))
}

// R5: the port is its queue's tail, and R6 follows. The word handed back for a store is ignored.
#[tactic(auto, unfolding(crate::specs::Hypervisor::reply_r5))]
pub fn reply_r5(call: Call, entry: u16) -> Move
    ensures { result ≡ reply_r5 call entry }
{
    Move {
        queue: call.queue,
        tail: call.port.0,
        entry,
        call: named(call, Stage::R6, call.queue),
        answer: Answer::Done,
        count: 0,
    }
}

// R6: an upcall is wanted if the bit was clear.
#[tactic(auto, unfolding(crate::specs::Hypervisor::reply_r6))]
pub fn reply_r6(call: Call, entry: u16, seen: u32) -> Move
    ensures { result ≡ reply_r6 call entry seen }
{
    if is_ready(seen, call.queue) {
        return ends(entry, Answer::Done, call.count);
    }
    ends(entry, Answer::UpcallWanted, call.count)
}

// The reply of the call's stage.
#[tactic(auto, unfolding(crate::specs::Hypervisor::staged))]
pub fn staged(call: Call, entry: u16, view: View, seen: u32) -> Move
    ensures { result ≡ staged call entry view seen }
{
    match call.stage {
        Stage::First => reply_first(call, entry, seen),
        Stage::R2 => reply_r2(call, entry, view, seen),
        Stage::R3 => reply_r3(call, entry, seen),
        Stage::R4 => reply_r4(call, entry, seen),
        Stage::SetBusy => reply_set_busy(call, entry, seen),
        Stage::ClearBusy => reply_clear_busy(call, entry),
        Stage::R5 => reply_r5(call, entry),
        Stage::R6 => reply_r6(call, entry, seen),
    }
}

// The owner's first access.
#[tactic(auto, unfolding(crate::specs::Hypervisor::due_first))]
pub fn due_first(owner: Owner, port: Port) -> Access
    ensures { result ≡ due_first owner port }
{
    let place = Place::Word(port);
    match owner {
        Owner::None | Owner::Bind => Access::Read(place),
        Owner::Close => Access::And(place, all_but(Flag::Pending)),
        Owner::Raise => Access::Or(place, mask(Flag::Pending)),
        Owner::Unmask => Access::And(place, all_but(Flag::Masked)),
    }
}

// The new word of R4's cas: LINK of the port, and BUSY clear.
pub fn linking_word(word: u32, port: Port) -> u32
    ensures { result ≡ linking_word link_bits word port.0 }
{
    let idle = after_and(word, all_but(Flag::Busy));
    with_link(idle, port)
}

// The access that a call waits for, where tail is its queue's tail.
#[tactic(auto, unfolding(crate::specs::Hypervisor::due))]
pub fn due(call: Call, tail: u32) -> Access
    ensures { result ≡ due link_bits call tail }
{
    let tail_word = Place::Word(Port(tail));
    match call.stage {
        Stage::First => due_first(call.owner, call.port),
        Stage::R2 => Access::Or(Place::Word(call.port), mask(Flag::Linked)),
        Stage::R3 => Access::Read(tail_word),
        Stage::R4 => Access::Cas(tail_word, call.word, linking_word(call.word, call.port)),
        Stage::SetBusy => Access::Or(tail_word, mask(Flag::Busy)),
        Stage::ClearBusy => Access::And(tail_word, all_but(Flag::Busy)),
        Stage::R5 => Access::Store(Place::Head(call.queue), call.port.0),
        Stage::R6 => Access::Or(Place::Ready, ready_mask(call.queue)),
    }
}
