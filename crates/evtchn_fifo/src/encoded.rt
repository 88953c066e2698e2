// What a call or a reply comes to, as C has it.
#![tactic(auto, unfolding(crate::specs::Encoded::unpacked, crate::specs::Encoded::encoded_answer, crate::specs::Encoded::encoded_place, crate::specs::Encoded::encoded_access, crate::specs::Encoded::encoded_masking))]

ghost use Rattle.std.specs.Prelude.{◌≡◌, ◌≤◌, ◌/◌, ◌%◌};
ghost use Rattle.evtchn_fifo.specs.Encoded.{unpacked, encoded, place_code, place_index, encoded_place, encoded_access, encoded_answer, encoded_masking, too_short};
ghost use Rattle.evtchn_fifo.specs.InPlace.{next_or_answer};

use calls::answer::Code;
use calls::types::{Access, Answer, Made, Place, Refused};

// C's four numbers of 32 bits, code, index, value and old, in two of 64, the first of each pair in the lower half: the calling
// convention returns both structs in the same two registers, and this one takes fewer instructions to fill.
#[repr(C)]
#[derive(Clone, Copy, PartialEq, Eq)]
pub struct PackedNext {
    pub first: u64,
    pub second: u64,
}

fn pair(lower: u32, upper: u32) -> u64
    ensures { (result % 0x100000000 ≡ lower) × (result / 0x100000000 ≡ upper) }
{
    u64::from(lower) | u64::from(upper) << 32
}

fn packed(code: u32, index: u32, value: u32, old: u32) -> PackedNext
    ensures { unpacked result ≡ encoded code index value old }
{
    PackedNext {
        first: pair(code, index),
        second: pair(value, old),
    }
}

// C's number for a record that is too short.
pub fn too_short() -> PackedNext
    ensures { unpacked result ≡ too_short }
{
    packed(64, 0, 0, 0)
}

pub fn encoded_answer(answer: Answer, count: u32) -> PackedNext
    ensures { unpacked result ≡ encoded_answer answer count }
{
    let code = Code::from(answer);
    packed(code.number, code.value, count, 0)
}

// The numbers of C's header, for places and for what is done there.
pub fn place_code(place: Place) -> u32
    ensures { (result ≡ place_code place) × (result ≤ 2) }
{
    match place {
        Place::Word(_) => 0,
        Place::Ready => 1,
        Place::Head(_) => 2,
    }
}

pub fn place_index(place: Place) -> u32
    ensures { result ≡ place_index place }
{
    match place {
        Place::Word(port) => port.0,
        Place::Ready => 0,
        Place::Head(queue) => queue.0,
    }
}

fn encoded_place(kind: u32, place: Place, value: u32, old: u32) -> PackedNext
    requires { kind ≤ 0x150 }
    ensures { unpacked result ≡ encoded_place kind place value old }
{
    packed(kind + place_code(place), place_index(place), value, old)
}

pub fn encoded_access(access: Access) -> PackedNext
    ensures { unpacked result ≡ encoded_access access }
{
    match access {
        Access::Read(place) => encoded_place(0x100, place, 0, 0),
        Access::Store(place, value) => encoded_place(0x110, place, value, 0),
        Access::Or(place, operand) => encoded_place(0x120, place, operand, 0),
        Access::And(place, operand) => encoded_place(0x130, place, operand, 0),
        Access::Swap(place, value) => encoded_place(0x140, place, value, 0),
        Access::Cas(place, old, new) => encoded_place(0x150, place, new, old),
    }
}

// What comes next, or the answer that refuses.
pub(crate) fn next_or_answer(outcome: Result<PackedNext, Answer>) -> PackedNext
    ensures { unpacked result ≡ next_or_answer outcome }
{
    match outcome {
        Ok(next) => next,
        Err(answer) => encoded_answer(answer, 0),
    }
}

// A mask's access says its answer 0 and count 1.
pub fn encoded_masking(masking: Result<Made, Refused>) -> PackedNext
    ensures { unpacked result ≡ encoded_masking masking }
{
    match masking {
        Ok(made) => encoded_access(made.access),
        Err(refused) => encoded_answer(refused.answer, refused.count),
    }
}
