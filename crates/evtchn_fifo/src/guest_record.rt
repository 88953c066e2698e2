// A guest's record in bytes: its fields read and written.
#![tactic(auto, unfolding(crate::specs::GuestRecord::guest_stage_of, crate::specs::GuestRecord::clear_stage_of, crate::specs::GuestRecord::service_at, crate::specs::GuestRecord::put_service, crate::specs::GuestRecord::clear_call_at, crate::specs::GuestRecord::put_clear, crate::specs::GuestRecord::put_guest))]

ghost use Rattle.std.specs.Prelude.{◌≡◌};
ghost use Rattle.calls.specs.Records.{is_clearing};
ghost use Rattle.evtchn_fifo.specs.GuestRecord.{guest_stage_code, guest_stage_of, clear_stage_code, clear_stage_of, words_in, service_at, clear_call_at, put_service, put_clear, put_guest};

use crate::layout::GuestBytes;
use crate::{layout, numbers};
use calls::types::{ClearCall, ClearStage, Guest, GuestCall, GuestStage};
use word::{Port, Queue};

// Stages are declared in the order of their codes. No `From` and no `TryFrom`, here and for clear stages, as in domain_record.rt.
pub fn guest_stage_code(stage: GuestStage) -> u32
    ensures { result ≡ guest_stage_code stage }
{
    stage as u32
}

// The stage of a code; none where it is no stage's.
pub fn guest_stage_of(code: u32) -> GuestStage
    ensures { result ≡ guest_stage_of code }
{
    match code {
        1 => GuestStage::G0,
        2 => GuestStage::G1,
        3 => GuestStage::G2,
        4 => GuestStage::G3,
        5 => GuestStage::G4,
        _ => GuestStage::None,
    }
}

pub fn clear_stage_code(stage: ClearStage) -> u32
    ensures { result ≡ clear_stage_code stage }
{
    stage as u32
}

// The stage of a code; none where it is no stage's.
pub fn clear_stage_of(code: u32) -> ClearStage
    ensures { result ≡ clear_stage_of code }
{
    match code {
        1 => ClearStage::Read,
        2 => ClearStage::Cas,
        _ => ClearStage::None,
    }
}

// The guest's number of words; 0 where the record is too short.
pub fn words_in(guest: &[u8]) -> u32
    ensures { result ≡ words_in guest.now }
{
    if guest.len() < layout::GUEST_SIZE {
        return 0;
    }
    numbers::u32_at(guest, layout::WORDS)
}

pub(crate) fn service_at(guest: &GuestBytes) -> GuestCall
    ensures { result ≡ service_at guest.now }
{
    GuestCall {
        stage: guest_stage_of(numbers::u32_at(guest, layout::GUEST_STAGE)),
        port: Port(numbers::u32_at(guest, layout::GUEST_PORT)),
        queue: Queue(numbers::u32_at(guest, layout::GUEST_QUEUE)),
        count: numbers::u32_at(guest, layout::GUEST_COUNT),
    }
}

pub(crate) fn put_service(guest: &mut GuestBytes, call: GuestCall)
    ensures { guest.new ≡ put_service guest.old call }
{
    numbers::put_u32(guest, layout::GUEST_STAGE, guest_stage_code(call.stage));
    numbers::put_u32(guest, layout::GUEST_PORT, call.port.0);
    numbers::put_u32(guest, layout::GUEST_QUEUE, call.queue.0);
    numbers::put_u32(guest, layout::GUEST_COUNT, call.count);
}

// Whether a clear_mask is under way, told by the code of its stage, as in `is_under_way`.
#[tactic(auto, using(crate::proofs::GuestLaws::clearing_is), unfolding(crate::specs::GuestRecord::clear_call_at))]
pub(crate) fn is_clearing_at(guest: &GuestBytes) -> bool
    ensures { result ≡ is_clearing (clear_call_at guest.now).stage }
{
    let stage = numbers::u32_at(guest, layout::CLEAR_STAGE);
    0 < stage && stage < 3
}

pub(crate) fn clear_call_at(guest: &GuestBytes) -> ClearCall
    ensures { result ≡ clear_call_at guest.now }
{
    ClearCall {
        stage: clear_stage_of(numbers::u32_at(guest, layout::CLEAR_STAGE)),
        port: Port(numbers::u32_at(guest, layout::CLEAR_PORT)),
        word: numbers::u32_at(guest, layout::CLEAR_WORD),
        count: numbers::u32_at(guest, layout::CLEAR_COUNT),
    }
}

pub(crate) fn put_clear(guest: &mut GuestBytes, call: ClearCall)
    ensures { guest.new ≡ put_clear guest.old call }
{
    numbers::put_u32(guest, layout::CLEAR_STAGE, clear_stage_code(call.stage));
    numbers::put_u32(guest, layout::CLEAR_PORT, call.port.0);
    numbers::put_u32(guest, layout::CLEAR_WORD, call.word);
    numbers::put_u32(guest, layout::CLEAR_COUNT, call.count);
}

// A record written whole.
pub(crate) fn put_guest(bytes: &mut GuestBytes, guest: Guest)
    ensures { bytes.new ≡ put_guest bytes.old guest }
{
    numbers::put_values(bytes, layout::HEADS, guest.heads);
    numbers::put_u32(bytes, layout::READY, guest.ready);
    numbers::put_u32(bytes, layout::WORDS, guest.words);
    put_service(bytes, guest.call);
    put_clear(bytes, guest.clear);
}
