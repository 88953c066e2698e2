// The guest's clear_mask, and her reply and what is due, which are the clear_mask's while one is under way, as C reaches them.
#![tactic(auto, unfolding(calls::specs::ClearMask::clear_mask_start, crate::specs::ClearMask::clear_mask_bytes, crate::specs::ClearMask::clear_move_bytes, calls::specs::ClearMask::clear_next, crate::specs::Encoded::encoded_next, crate::specs::ClearMask::guest_reply_bytes, crate::specs::ClearMask::guest_due_bytes))]

ghost use Rattle.std.specs.Prelude.{◌≡◌};
ghost use Rattle.word.specs.Word.{link_bits, port_at};
ghost use Rattle.calls.specs.Records.{guest_idle};
ghost use Rattle.calls.specs.ClearMask.{clear_staged, clear_mask_start};
ghost use Rattle.evtchn_fifo.specs.GuestRecord.{words_at, clear_call_at, without_heads, put_clear};
ghost use Rattle.evtchn_fifo.specs.Encoded.{unpacked, wrote, encoded_access};
ghost use Rattle.evtchn_fifo.specs.ClearMask.{clear_began_of, clear_mask_bytes, clear_move_bytes, replied_bytes, guest_reply_bytes, guest_due_bytes};
ghost use Rattle.evtchn_fifo.specs.InPlace.{guest_due_at};

use crate::encoded::PackedNext;
use crate::layout::GuestBytes;
use crate::{encoded, guest, guest_record, layout, numbers};
use calls::types::{Access, Answer, ClearCall, ClearStage, Place};
use calls::{clear_mask, records};
use word::Port;

// A clear_mask goes on with an access.
fn goes_on(guest: &mut GuestBytes, call: ClearCall, access: Access) -> PackedNext
    ensures { wrote (unpacked result) guest.new ≡ wrote (encoded_access access) (put_clear guest.old call) }
{
    guest_record::put_clear(guest, call);
    encoded::encoded_access(access)
}

// Each refusal is returned by itself: by a Result a start takes 3 instructions more.
fn clear_mask(guest: &mut GuestBytes, port: Port) -> PackedNext
    ensures { wrote (unpacked result) guest.new ≡ clear_began_of guest.old (clear_mask_start link_bits (without_heads (words_at guest.old) guest_idle (clear_call_at guest.old)) port) }
{
    if guest_record::is_clearing_at(guest) {
        return encoded::encoded_answer(Answer::CallUnderWay, 0);
    }
    if !records::is_port(port) {
        return encoded::encoded_answer(Answer::BadPort, 0);
    }
    if numbers::u32_at(guest, layout::WORDS) <= port.0 {
        return encoded::encoded_answer(Answer::OutsideArray, 0);
    }
    let first = records::clear_at(ClearStage::Read, port, 0, 1);
    goes_on(guest, first, Access::Read(Place::Word(port)))
}

// The guest clears MASKED of a port by herself: 15, 3, 6; 35 where she has to call unmask.
pub fn evtchn_fifo_bytes_clear_mask(guest: &mut [u8], port: u64) -> PackedNext
    ensures { wrote (unpacked result) guest.new ≡ clear_mask_bytes link_bits guest.old port }
{
    let Some(record) = guest.first_chunk_mut() else {
        return encoded::too_short();
    };
    clear_mask(record, Port(numbers::narrowed(port)))
}

// The clear_mask's reply; one that ends leaves its other words.
fn clear_reply(guest: &mut GuestBytes, seen: u32) -> PackedNext
    ensures { wrote (unpacked result) guest.new ≡ clear_move_bytes guest.old (clear_staged (clear_call_at guest.old) seen) }
{
    let step = clear_mask::clear_staged(guest_record::clear_call_at(guest), seen);
    if records::is_clearing(step.call.stage) {
        return goes_on(guest, step.call, clear_mask::clear_access(step.call));
    }
    numbers::put_u32(guest, layout::CLEAR_STAGE, 0);
    encoded::encoded_answer(step.answer, step.count)
}

fn reply(guest: &mut GuestBytes, seen: u32) -> PackedNext
    ensures { wrote (unpacked result) guest.new ≡ replied_bytes link_bits guest.old seen }
{
    if guest_record::is_clearing_at(guest) {
        return clear_reply(guest, seen);
    }
    guest::reply_staged(guest, seen)
}

// The reply to the access that was named last, with the word seen: the clear_mask's while one is under way, else the service's.
pub fn evtchn_fifo_bytes_service_reply(guest: &mut [u8], seen: u32) -> PackedNext
    ensures { wrote (unpacked result) guest.new ≡ guest_reply_bytes link_bits guest.old seen }
{
    match guest.first_chunk_mut() {
        Some(record) => reply(record, seen),
        None => encoded::too_short(),
    }
}

fn due(guest: &GuestBytes) -> PackedNext
    ensures { unpacked result ≡ guest_due_at link_bits guest.now }
{
    if guest_record::is_clearing_at(guest) {
        let clear = guest_record::clear_call_at(guest);
        return encoded::encoded_access(clear_mask::clear_access(clear));
    }
    guest::service_next_at(guest_record::service_at(guest), Answer::NoCall, 0)
}

// The access that the clear_mask under way waits for, else the service; 16 where neither is.
pub fn evtchn_fifo_bytes_service_due(guest: &[u8]) -> PackedNext
    ensures { unpacked result ≡ guest_due_bytes link_bits guest.now }
{
    let Some(record) = guest.first_chunk() else {
        return encoded::too_short();
    };
    due(record)
}
