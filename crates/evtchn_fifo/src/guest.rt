// The guest's service with its reply, mask and tell. C reaches the reply through clear_mask, which comes first. The stages stand here once
// more, in place, for the reason that replies.rt gives.
#![tactic(auto, unfolding(crate::specs::Guest::service_next_at, crate::specs::Guest::fresh_guest_bytes, calls::specs::Guest::service_start, calls::specs::Guest::guest_next, calls::specs::Guest::is_serving, calls::specs::Guest::guest_due, crate::specs::Guest::service_bytes, calls::specs::Guest::takes_index, crate::specs::Guest::guest_move_bytes, crate::specs::Numbers::put_value, calls::specs::Guest::reply_g0, calls::specs::Guest::service_queue, calls::specs::Guest::guest_staged, crate::specs::Guest::mask_bytes))]

ghost use Rattle.std.specs.Prelude.{◌≡◌};
ghost use Rattle.word.specs.Word.{link_bits};
ghost use Rattle.word.specs.Ready.{cleared};
ghost use Rattle.calls.specs.declared.types.Answer.TheVariants.{BadIndex};
ghost use Rattle.calls.specs.Guest.{service_queue, service_start, takes_index, reply_g0, reply_g2, reply_g3, reply_g4};
ghost use Rattle.evtchn_fifo.specs.Numbers.{put_number, put_value};
ghost use Rattle.evtchn_fifo.specs.GuestRecord.{head_at, ready_at, words_at, service_at, clear_call_at, without_heads, put_service, put_service_end};
ghost use Rattle.evtchn_fifo.specs.Encoded.{unpacked, wrote, freshened, encoded_answer, encoded_access};
ghost use Rattle.evtchn_fifo.specs.Guest.{service_next_at, service_bytes, began_of, guest_move_bytes, served_bytes, mask_bytes, tell_bytes, fresh_guest_bytes};

use crate::encoded::PackedNext;
use crate::layout::GuestBytes;
use crate::{encoded, guest_record, layout, numbers};
use calls::records;
use calls::types::{Access, Answer, GuestCall, GuestStage, Place};
use word::{Flag, Port, Queue};

// The access that a service waits for, or the answer with its count where there is none.
pub fn service_next_at(call: GuestCall, answer: Answer, count: u32) -> PackedNext
    ensures { unpacked result ≡ service_next_at link_bits call answer count }
{
    if !calls::guest::is_serving(call.stage) {
        return encoded::encoded_answer(answer, count);
    }
    encoded::encoded_access(calls::guest::guest_access(call))
}

// 0, or 64 where the record is too short: C's number, and no Result.
pub fn evtchn_fifo_bytes_fresh_guest(guest: &mut [u8]) -> u32
    ensures { freshened result guest.new ≡ fresh_guest_bytes guest.old }
{
    let Some(record) = guest.first_chunk_mut() else {
        return 64;
    };
    guest_record::put_guest(record, records::fresh_guest());
    0
}

fn service(guest: &mut GuestBytes) -> PackedNext
    ensures { wrote (unpacked result) guest.new ≡ began_of guest.old (service_start link_bits (without_heads 0 (service_at guest.old) (clear_call_at guest.old))) }
{
    if guest_record::is_clearing_at(guest) {
        return encoded::encoded_answer(Answer::CallUnderWay, 0);
    }
    let call = guest_record::service_at(guest);
    if calls::guest::is_serving(call.stage) {
        return encoded::encoded_answer(Answer::CallUnderWay, 0);
    }
    let first = records::guest_call_at(GuestStage::G0, Port(0), Queue(0), 1);
    goes_on(guest, first, Access::Swap(Place::Ready, 0))
}

pub fn evtchn_fifo_bytes_service(guest: &mut [u8]) -> PackedNext
    ensures { wrote (unpacked result) guest.new ≡ service_bytes link_bits guest.old }
{
    let Some(record) = guest.first_chunk_mut() else {
        return encoded::too_short();
    };
    service(record)
}

// The service ends; its other words stay. The hypervisor has an `ends` and a `goes_on` of its own, and clear_mask a `goes_on`: one for all
// would take a slice and a place with a clause on its length, or a trait for the three calls, and each is two lines.
fn ends(guest: &mut GuestBytes, answer: Answer, count: u32) -> PackedNext
    ensures { wrote (unpacked result) guest.new ≡ wrote (encoded_answer answer count) (put_service_end guest.old) }
{
    numbers::put_u32(guest, layout::GUEST_STAGE, 0);
    encoded::encoded_answer(answer, count)
}

// It goes on with an access.
fn goes_on(guest: &mut GuestBytes, call: GuestCall, access: Access) -> PackedNext
    ensures { wrote (unpacked result) guest.new ≡ wrote (encoded_access access) (put_service guest.old call) }
{
    guest_record::put_service(guest, call);
    encoded::encoded_access(access)
}

// 18: H and the local bit of the queue become 0.
fn bad_index(guest: &mut GuestBytes, ready: u32, queue: Queue, count: u32) -> PackedNext
    ensures { wrote (unpacked result) guest.new ≡ wrote (encoded_answer BadIndex count) (put_service_end (put_value 0 (put_number 3 guest.old 64 (cleared ready queue.0)) queue.0 0)) }
{
    numbers::put_u32(guest, layout::READY, word::ready::cleared(ready, queue));
    numbers::put_value(guest, layout::HEADS, queue, 0);
    ends(guest, Answer::BadIndex, count)
}

// An index from H or HEAD: 18 where it is 0 or outside her words, else G2.
fn takes_index(
    guest: &mut GuestBytes,
    call: GuestCall,
    ready: u32,
    queue: Queue,
    index: u32,
) -> PackedNext
    ensures { wrote (unpacked result) guest.new ≡ guest_move_bytes link_bits guest.old (takes_index call ready (words_at guest.old) queue index) }
{
    if index == 0 || numbers::u32_at(guest, layout::WORDS) <= index {
        return bad_index(guest, ready, queue, call.count);
    }
    let port = Port(index);
    numbers::put_u32(guest, layout::READY, ready);
    goes_on(
        guest,
        calls::guest::guest_named(call, GuestStage::G2, port, queue),
        Access::And(Place::Word(port), word::event::unlink_operand()),
    )
}

// G0: local bits are added; none gives 20. The lowest set bit is the queue: G1 where its H is 0.
fn reply_g0(guest: &mut GuestBytes, call: GuestCall, seen: u32) -> PackedNext
    ensures { wrote (unpacked result) guest.new ≡ guest_move_bytes link_bits guest.old (reply_g0 call (ready_at guest.old) (words_at guest.old) (head_at guest.old (service_queue (ready_at guest.old) seen).0) seen) }
{
    let local = word::ready::merged(numbers::u32_at(guest, layout::READY), seen);
    if local == 0 {
        numbers::put_u32(guest, layout::READY, local);
        return ends(guest, Answer::NothingReady, call.count);
    }
    let queue = word::ready::lowest(local);
    let head = numbers::value_at(guest, layout::HEADS, queue);
    if head == 0 {
        numbers::put_u32(guest, layout::READY, local);
        return goes_on(
            guest,
            calls::guest::guest_named(call, GuestStage::G1, Port(0), queue),
            Access::Read(Place::Head(queue)),
        );
    }
    takes_index(guest, call, local, queue, head)
}

// G1: the index is the HEAD seen.
fn reply_g1(guest: &mut GuestBytes, call: GuestCall, seen: u32) -> PackedNext
    ensures { wrote (unpacked result) guest.new ≡ guest_move_bytes link_bits guest.old (takes_index call (ready_at guest.old) (words_at guest.old) call.queue seen) }
{
    let ready = numbers::u32_at(guest, layout::READY);
    takes_index(guest, call, ready, call.queue, seen)
}

// G2: H becomes the LINK seen; where that is 0 the local bit clears.
#[tactic(auto, using(crate::proofs::NumberLaws::put_same), unfolding(calls::specs::Guest::reply_g2, crate::specs::Guest::guest_move_bytes, crate::specs::Guest::service_next_at, crate::specs::Numbers::put_value, calls::specs::Guest::is_serving, calls::specs::Guest::guest_due))]
fn reply_g2(guest: &mut GuestBytes, call: GuestCall, seen: u32) -> PackedNext
    ensures { wrote (unpacked result) guest.new ≡ guest_move_bytes link_bits guest.old (reply_g2 link_bits call (ready_at guest.old) seen) }
{
    let link = word::event::link(seen);
    let next = calls::guest::guest_named(call, GuestStage::G3, call.port, call.queue);
    if link.0 == 0 {
        let ready = numbers::u32_at(guest, layout::READY);
        numbers::put_u32(
            guest,
            layout::READY,
            word::ready::cleared(ready, call.queue),
        );
        numbers::put_value(guest, layout::HEADS, call.queue, 0);
        return goes_on(guest, next, Access::Read(Place::Word(call.port)));
    }
    numbers::put_value(guest, layout::HEADS, call.queue, link.0);
    goes_on(guest, next, Access::Read(Place::Word(call.port)))
}

// G3: pending and not masked goes on at G4; else 21.
#[tactic(auto, using(crate::proofs::NumberLaws::put_same), unfolding(calls::specs::Guest::reply_g3, crate::specs::Guest::guest_move_bytes, crate::specs::Guest::service_next_at, crate::specs::Numbers::put_value, calls::specs::Guest::is_serving, calls::specs::Guest::guest_due))]
fn reply_g3(guest: &mut GuestBytes, call: GuestCall, seen: u32) -> PackedNext
    ensures { wrote (unpacked result) guest.new ≡ guest_move_bytes link_bits guest.old (reply_g3 call (ready_at guest.old) seen) }
{
    if !word::event::has(seen, Flag::Pending) || word::event::has(seen, Flag::Masked) {
        return ends(guest, Answer::Taken(call.port), call.count);
    }
    goes_on(
        guest,
        calls::guest::guest_named(call, GuestStage::G4, call.port, call.queue),
        Access::And(Place::Word(call.port), word::event::all_but(Flag::Pending)),
    )
}

// G4: 19 if the port was still pending, else 21.
#[tactic(auto, using(crate::proofs::NumberLaws::put_same), unfolding(calls::specs::Guest::reply_g4, crate::specs::Guest::guest_move_bytes, crate::specs::Guest::service_next_at, crate::specs::Numbers::put_value, calls::specs::Guest::is_serving, calls::specs::Guest::guest_due))]
fn reply_g4(guest: &mut GuestBytes, call: GuestCall, seen: u32) -> PackedNext
    ensures { wrote (unpacked result) guest.new ≡ guest_move_bytes link_bits guest.old (reply_g4 call (ready_at guest.old) seen) }
{
    if word::event::has(seen, Flag::Pending) {
        return ends(guest, Answer::HandedOver(call.port), call.count);
    }
    ends(guest, Answer::Taken(call.port), call.count)
}

// The reply of the service's stage; 16 where there is none.
pub(crate) fn reply_staged(guest: &mut GuestBytes, seen: u32) -> PackedNext
    ensures { wrote (unpacked result) guest.new ≡ served_bytes link_bits guest.old seen }
{
    let call = guest_record::service_at(guest);
    match call.stage {
        GuestStage::None => encoded::encoded_answer(Answer::NoCall, 0),
        GuestStage::G0 => reply_g0(guest, call, seen),
        GuestStage::G1 => reply_g1(guest, call, seen),
        GuestStage::G2 => reply_g2(guest, call, seen),
        GuestStage::G3 => reply_g3(guest, call, seen),
        GuestStage::G4 => reply_g4(guest, call, seen),
    }
}

// A mask of a port by a number of words. With its access its answer is 0 and its count 1; it takes no reply.
pub fn evtchn_fifo_mask(port: u64, words: u64) -> PackedNext
    ensures { unpacked result ≡ mask_bytes link_bits port words }
{
    let port = Port(numbers::narrowed(port));
    encoded::encoded_masking(calls::guest::mask(port, numbers::narrowed(words)))
}

#[tactic(auto, using(crate::proofs::NumberLaws::put_same), unfolding(crate::specs::Guest::tell_bytes, calls::specs::Guest::tell_of, crate::specs::Encoded::encoded_next))]
pub fn evtchn_fifo_bytes_tell(guest: &mut [u8], words: u64) -> PackedNext
    ensures { wrote (unpacked result) guest.new ≡ tell_bytes guest.old words }
{
    if guest.len() < layout::GUEST_SIZE {
        return encoded::too_short();
    }
    let told = numbers::narrowed(words);
    if numbers::u32_at(guest, layout::WORDS) < told {
        numbers::put_u32(guest, layout::WORDS, told);
    }
    encoded::encoded_answer(Answer::Done, 0)
}
