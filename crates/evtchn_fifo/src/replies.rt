// The hypervisor's replies on bytes, a function for each stage of the call under way. Each path of a stage writes the words that
// it changes and names what comes next by itself: where paths met before they write, the compiler would carry every word of the
// record and of the answer to that place (365 instructions a raise, where this form takes 194: docs/DECISIONS.md). Only a bind's, a close's and R2's reply are lent the port's entry.
#![tactic(auto, using(crate::proofs::NumberLaws::put_same), unfolding(calls::specs::Hypervisor::due, calls::specs::Hypervisor::reply_r1, calls::specs::Hypervisor::reply_u1, calls::specs::Hypervisor::reply_bind, calls::specs::Hypervisor::reply_close, calls::specs::Hypervisor::stale_queue, calls::specs::Hypervisor::reply_r3, calls::specs::Hypervisor::after_first_cas, calls::specs::Hypervisor::after_later_cas, calls::specs::Hypervisor::reply_set_busy, calls::specs::Hypervisor::reply_r6, crate::specs::InPlace::in_place, crate::specs::Numbers::put_value))]

ghost use Rattle.std.specs.Prelude.{◌≡◌, ℕ};
ghost use Rattle.word.specs.Word.{link_bits};
ghost use Rattle.word.specs.Entry.{last_queue};
ghost use Rattle.calls.specs.Hypervisor.{stale_queue, reply_r1, reply_u1, reply_bind, reply_close, reply_first, reply_r2, reply_r3, after_first_cas, after_later_cas, reply_r4, reply_set_busy, reply_clear_busy, reply_r5, reply_r6, ends_tailed};
ghost use Rattle.evtchn_fifo.specs.DomainRecord.{call_at, view_at, tail_at, put_next, put_tail, put_end};
ghost use Rattle.evtchn_fifo.specs.Encoded.{unpacked, wrote, encoded_answer, encoded_access};
ghost use Rattle.evtchn_fifo.specs.Hypervisor.{move_at};
ghost use Rattle.evtchn_fifo.specs.InPlace.{in_place, entry_at, put_entry_at, r2_in_place, r4_in_place, clear_busy_in_place, r5_in_place, after_r2_in_place};

use crate::encoded::PackedNext;
use crate::layout::{DomainBytes, EntryBytes};
use crate::{domain_record, encoded, layout, numbers};
use calls::hypervisor::stage;
use calls::types::{Access, Answer, Call, Owner, Place, Stage};
use word::{Flag, Port, Queue};

// The call ends.
fn ends(domain: &mut DomainBytes, answer: Answer, count: u32) -> PackedNext
    ensures { wrote (unpacked result) domain.new ≡ wrote (encoded_answer answer count) (put_end domain.old) }
{
    numbers::put_u32(domain, layout::OWNER, 0);
    encoded::encoded_answer(answer, count)
}

// It goes on with an access.
fn goes_on(domain: &mut DomainBytes, call: Call, access: Access) -> PackedNext
    ensures { wrote (unpacked result) domain.new ≡ wrote (encoded_access access) (put_next domain.old call) }
{
    domain_record::put_next(domain, call);
    encoded::encoded_access(access)
}

fn to_r2(domain: &mut DomainBytes) -> PackedNext
    ensures { wrote (unpacked result) domain.new ≡ r2_in_place domain.old }
{
    let call = domain_record::call_at(domain);
    goes_on(
        domain,
        stage::named(call, Stage::R2, Queue(0)),
        Access::Or(Place::Word(call.port), word::event::mask(Flag::Linked)),
    )
}

fn to_r5(domain: &mut DomainBytes, queue: Queue) -> PackedNext
    ensures { wrote (unpacked result) domain.new ≡ r5_in_place domain.old queue }
{
    let call = domain_record::call_at(domain);
    goes_on(
        domain,
        stage::named(call, Stage::R5, queue),
        Access::Store(Place::Head(queue), call.port.0),
    )
}

// R1: masked or linked ends the call; else R2.
fn reply_r1(domain: &mut DomainBytes, seen: u32) -> PackedNext
    ensures { (e : ℕ) → wrote (unpacked result) domain.new ≡ in_place link_bits domain.old (reply_r1 (call_at domain.old) e seen) }
{
    if word::event::has(seen, Flag::Masked) || word::event::has(seen, Flag::Linked) {
        let call = domain_record::call_at(domain);
        return ends(domain, Answer::Done, call.count);
    }
    to_r2(domain)
}

// U1: pending and not linked goes on at R2.
fn reply_u1(domain: &mut DomainBytes, seen: u32) -> PackedNext
    ensures { (e : ℕ) → wrote (unpacked result) domain.new ≡ in_place link_bits domain.old (reply_u1 (call_at domain.old) e seen) }
{
    if !word::event::has(seen, Flag::Pending) || word::event::has(seen, Flag::Linked) {
        let call = domain_record::call_at(domain);
        return ends(domain, Answer::Done, call.count);
    }
    to_r2(domain)
}

// A bind's read: an old event that is still linked refuses it (7).
fn reply_bind(domain: &mut DomainBytes, entry: &mut EntryBytes, seen: u32) -> PackedNext
    ensures domain { wrote (unpacked result) domain.new ≡ in_place link_bits domain.old (reply_bind (call_at domain.old) (entry_at entry.old) seen) }
    ensures entry { entry.new ≡ put_entry_at entry.old (reply_bind (call_at domain.old) (entry_at entry.old) seen).entry }
{
    let call = domain_record::call_at(domain);
    if word::event::has(seen, Flag::Linked) {
        return ends(domain, Answer::StillLinked, call.count);
    }
    let bound = word::entry::bound_entry(numbers::u16_at(entry, 0));
    numbers::put_u16(entry, 0, bound);
    ends(domain, Answer::Done, call.count)
}

// A close's and.
fn reply_close(domain: &mut DomainBytes, entry: &mut EntryBytes) -> PackedNext
    ensures domain { wrote (unpacked result) domain.new ≡ in_place link_bits domain.old (reply_close (call_at domain.old) (entry_at entry.old)) }
    ensures entry { entry.new ≡ put_entry_at entry.old (reply_close (call_at domain.old) (entry_at entry.old)).entry }
{
    let call = domain_record::call_at(domain);
    let closed = word::entry::closed_entry(numbers::u16_at(entry, 0));
    numbers::put_u16(entry, 0, closed);
    ends(domain, Answer::Done, call.count)
}

// The owner's first access.
#[tactic(auto, using(crate::proofs::NumberLaws::put_same, crate::proofs::ReplyLaws::r1_entry, crate::proofs::ReplyLaws::u1_entry), unfolding(calls::specs::Hypervisor::reply_first, crate::specs::DomainRecord::call_at, crate::specs::InPlace::in_place, crate::specs::Numbers::put_value, calls::specs::Hypervisor::due))]
fn reply_first(domain: &mut DomainBytes, entry: &mut EntryBytes, seen: u32) -> PackedNext
    ensures domain { wrote (unpacked result) domain.new ≡ in_place link_bits domain.old (reply_first (call_at domain.old) (entry_at entry.old) seen) }
    ensures entry { entry.new ≡ put_entry_at entry.old (reply_first (call_at domain.old) (entry_at entry.old) seen).entry }
{
    match domain_record::owner_at(domain) {
        Owner::None => ends(domain, Answer::NoCall, 0),
        Owner::Bind => reply_bind(domain, entry, seen),
        Owner::Close => reply_close(domain, entry),
        Owner::Raise => reply_r1(domain, seen),
        Owner::Unmask => reply_u1(domain, seen),
    }
}

// R2, the rule on a moved port: its last queue loses its tail where that is the port and the queue is another.
fn clear_stale(domain: &mut DomainBytes, entry: u16, port: Port, queue: Queue)
    ensures { domain.new ≡ put_tail domain.old (stale_queue entry port queue (tail_at domain.old (last_queue entry))).0 0 }
{
    if !word::entry::has_been_linked(entry) {
        return;
    }
    let last = word::entry::last_queue(entry);
    if last.0 == queue.0 {
        return;
    }
    let former = numbers::value_at(domain, layout::TAILS, last);
    if former == port.0 {
        numbers::put_value(domain, layout::TAILS, last, 0);
    }
}

// R2: the queue is the entry's priority now.
#[tactic(auto, using(crate::proofs::NumberLaws::put_same), unfolding(calls::specs::Hypervisor::reply_r2, crate::specs::InPlace::in_place, crate::specs::Numbers::put_value))]
fn reply_r2(domain: &mut DomainBytes, entry: &mut EntryBytes, seen: u32) -> PackedNext
    ensures domain { wrote (unpacked result) domain.new ≡ in_place link_bits domain.old (reply_r2 (call_at domain.old) (entry_at entry.old) (view_at domain.old (entry_at entry.old)) seen) }
    ensures entry { entry.new ≡ put_entry_at entry.old (reply_r2 (call_at domain.old) (entry_at entry.old) (view_at domain.old (entry_at entry.old)) seen).entry }
{
    let call = domain_record::call_at(domain);
    if word::event::has(seen, Flag::Linked) {
        return ends(domain, Answer::Done, call.count);
    }
    let old = numbers::u16_at(entry, 0);
    let queue = word::entry::queue_of(word::entry::priority_of(old));
    numbers::put_u16(entry, 0, word::entry::linked_entry(old, queue));
    clear_stale(domain, old, call.port, queue);
    from_r2(domain, queue)
}

// After R2: R5 where the queue has no tail or the port itself as its tail, else R3.
fn from_r2(domain: &mut DomainBytes, queue: Queue) -> PackedNext
    ensures { wrote (unpacked result) domain.new ≡ after_r2_in_place domain.old queue }
{
    let call = domain_record::call_at(domain);
    let tail = numbers::value_at(domain, layout::TAILS, queue);
    if tail == 0 {
        return to_r5(domain, queue);
    }
    // Joined by ||, the compiler makes both ways and picks one: 11 instructions more a raise.
    if tail == call.port.0 {
        return to_r5(domain, queue);
    }
    goes_on(
        domain,
        stage::named(call, Stage::R3, queue),
        Access::Read(Place::Word(Port(tail))),
    )
}

// A cas of the tail's word is named; tries counts the cas named, with this one.
fn to_r4(domain: &mut DomainBytes, tries: u32, word: u32) -> PackedNext
    ensures { wrote (unpacked result) domain.new ≡ r4_in_place link_bits domain.old tries word }
{
    let call = domain_record::call_at(domain);
    let tail = numbers::value_at(domain, layout::TAILS, call.queue);
    goes_on(
        domain,
        stage::comparing(call, tries, word),
        Access::Cas(
            Place::Word(Port(tail)),
            word,
            stage::linking_word(word, call.port),
        ),
    )
}

// The and that clears BUSY of the tail's word is named; word is the latest word seen.
fn to_clear_busy(domain: &mut DomainBytes, word: u32) -> PackedNext
    ensures { wrote (unpacked result) domain.new ≡ clear_busy_in_place domain.old word }
{
    let call = domain_record::call_at(domain);
    let tail = numbers::value_at(domain, layout::TAILS, call.queue);
    goes_on(
        domain,
        stage::clearing(call, word),
        Access::And(Place::Word(Port(tail)), word::event::all_but(Flag::Busy)),
    )
}

// The call ends, and its port is its queue's tail.
fn ends_tailed(domain: &mut DomainBytes, answer: Answer) -> PackedNext
    ensures { (e : ℕ) → wrote (unpacked result) domain.new ≡ in_place link_bits domain.old (ends_tailed e (call_at domain.old) answer) }
{
    let call = domain_record::call_at(domain);
    numbers::put_value(domain, layout::TAILS, call.queue, call.port.0);
    ends(domain, answer, call.count)
}

// R3: a word without LINKED goes on at R5; else the first cas, of that very word.
fn reply_r3(domain: &mut DomainBytes, seen: u32) -> PackedNext
    ensures { (e : ℕ) → wrote (unpacked result) domain.new ≡ in_place link_bits domain.old (reply_r3 (call_at domain.old) e seen) }
{
    if word::event::has(seen, Flag::Linked) {
        return to_r4(domain, 1, seen);
    }
    let call = domain_record::call_at(domain);
    to_r5(domain, call.queue)
}

// R4's first cas is not taken: R5 where the word seen lacks LINKED, else BUSY is set.
fn after_first_cas(domain: &mut DomainBytes, seen: u32) -> PackedNext
    ensures { (e : ℕ) → wrote (unpacked result) domain.new ≡ in_place link_bits domain.old (after_first_cas (call_at domain.old) e seen) }
{
    let call = domain_record::call_at(domain);
    if !word::event::has(seen, Flag::Linked) {
        return to_r5(domain, call.queue);
    }
    let tail = numbers::value_at(domain, layout::TAILS, call.queue);
    goes_on(
        domain,
        stage::named(call, Stage::SetBusy, call.queue),
        Access::Or(Place::Word(Port(tail)), word::event::mask(Flag::Busy)),
    )
}

// A later one is not taken: BUSY is cleared where the word seen lacks LINKED and after the fifth cas; else another cas.
fn after_later_cas(domain: &mut DomainBytes, seen: u32) -> PackedNext
    ensures { (e : ℕ) → wrote (unpacked result) domain.new ≡ in_place link_bits domain.old (after_later_cas (call_at domain.old) e seen) }
{
    let call = domain_record::call_at(domain);
    if !word::event::has(seen, Flag::Linked) || 5 <= call.tries {
        return to_clear_busy(domain, seen);
    }
    to_r4(domain, call.tries + 1, seen)
}

// R4's cas: taken ends the call.
#[tactic(auto, unfolding(calls::specs::Hypervisor::reply_r4))]
fn reply_r4(domain: &mut DomainBytes, seen: u32) -> PackedNext
    ensures { (e : ℕ) → wrote (unpacked result) domain.new ≡ in_place link_bits domain.old (reply_r4 (call_at domain.old) e seen) }
{
    let call = domain_record::call_at(domain);
    if word::effect::cas_taken(seen, call.word) {
        return ends_tailed(domain, Answer::Done);
    }
    if call.tries <= 1 {
        return after_first_cas(domain, seen);
    }
    after_later_cas(domain, seen)
}

// BUSY is set: the second cas compares with the word seen and BUSY.
fn reply_set_busy(domain: &mut DomainBytes, seen: u32) -> PackedNext
    ensures { (e : ℕ) → wrote (unpacked result) domain.new ≡ in_place link_bits domain.old (reply_set_busy (call_at domain.old) e seen) }
{
    if !word::event::has(seen, Flag::Linked) {
        return to_clear_busy(domain, seen);
    }
    let busy = word::event::mask(Flag::Busy);
    to_r4(domain, 2, word::effect::after_or(seen, busy))
}

// BUSY is cleared: R5 where the latest word seen lacks LINKED; else the link is abandoned.
#[tactic(auto, using(crate::proofs::ReplyLaws::r5_move), unfolding(calls::specs::Hypervisor::reply_clear_busy))]
fn reply_clear_busy(domain: &mut DomainBytes) -> PackedNext
    ensures { (e : ℕ) → wrote (unpacked result) domain.new ≡ in_place link_bits domain.old (reply_clear_busy (call_at domain.old) e) }
{
    let call = domain_record::call_at(domain);
    if word::event::has(call.word, Flag::Linked) {
        return ends_tailed(domain, Answer::LinkAbandoned);
    }
    to_r5(domain, call.queue)
}

// R5: the port is its queue's tail, and R6 follows.
#[tactic(auto, using(crate::proofs::DomainLaws::call_apart), unfolding(calls::specs::Hypervisor::reply_r5, crate::specs::InPlace::in_place, calls::specs::Hypervisor::due))]
fn reply_r5(domain: &mut DomainBytes) -> PackedNext
    ensures { (e : ℕ) → wrote (unpacked result) domain.new ≡ in_place link_bits domain.old (reply_r5 (call_at domain.old) e) }
{
    let call = domain_record::call_at(domain);
    numbers::put_value(domain, layout::TAILS, call.queue, call.port.0);
    goes_on(
        domain,
        stage::named(call, Stage::R6, call.queue),
        Access::Or(Place::Ready, word::ready::ready_mask(call.queue)),
    )
}

// R6: an upcall is wanted if the bit was clear.
fn reply_r6(domain: &mut DomainBytes, seen: u32) -> PackedNext
    ensures { (e : ℕ) → wrote (unpacked result) domain.new ≡ in_place link_bits domain.old (reply_r6 (call_at domain.old) e seen) }
{
    let call = domain_record::call_at(domain);
    if word::ready::is_ready(seen, call.queue) {
        return ends(domain, Answer::Done, call.count);
    }
    ends(domain, Answer::UpcallWanted, call.count)
}

// The reply of the call's stage.
#[tactic(auto, using(crate::proofs::ReplyLaws::staged_entries, crate::proofs::NumberLaws::put_same), unfolding(calls::specs::Hypervisor::staged, crate::specs::DomainRecord::call_at))]
pub(crate) fn reply_staged(
    domain: &mut DomainBytes,
    entry: &mut EntryBytes,
    seen: u32,
) -> PackedNext
    ensures domain { wrote (unpacked result) domain.new ≡ in_place link_bits domain.old (move_at domain.old (entry_at entry.old) seen) }
    ensures entry { entry.new ≡ put_entry_at entry.old (move_at domain.old (entry_at entry.old) seen).entry }
{
    match domain_record::stage_of(numbers::u32_at(domain, layout::STAGE)) {
        Stage::First => reply_first(domain, entry, seen),
        Stage::R2 => reply_r2(domain, entry, seen),
        Stage::R3 => reply_r3(domain, seen),
        Stage::R4 => reply_r4(domain, seen),
        Stage::SetBusy => reply_set_busy(domain, seen),
        Stage::ClearBusy => reply_clear_busy(domain),
        Stage::R5 => reply_r5(domain),
        Stage::R6 => reply_r6(domain, seen),
    }
}
