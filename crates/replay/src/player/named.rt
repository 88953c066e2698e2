// What C reads out of a result: the number of its answer and the value with it, or the access that it names.
ghost use Rattle.std.specs.Prelude.{◌≡◌, ◌/◌, ◌%◌, eqb};
ghost use Rattle.evtchn_fifo.specs.Encoded.{unpacked};
ghost use Rattle.exported.specs.Decoded.{decoded_place, decoded_kind};
ghost use Rattle.replay.specs.State.{named_in};

use calls::answer::Code;
use calls::types::{Access, Place};
use evtchn_fifo::encoded::PackedNext;
use word::{Port, Queue};

#[derive(Clone, Copy, PartialEq, Eq)]
pub(crate) enum Named {
    Answer(Code),
    Access(Access),
}

fn lower(pair: u64) -> u32
    ensures { result ≡ pair % 0x100000000 }
{
    (pair % 0x1_0000_0000) as u32
}

fn upper(pair: u64) -> u32
    ensures { result ≡ pair / 0x100000000 }
{
    (pair / 0x1_0000_0000) as u32
}

// No `TryFrom` here and below: any number names a place and an access, as `decoded_place` and `decoded_kind` have it.
#[tactic(auto, unfolding(exported::specs::Decoded::decoded_place))]
fn place_in(place: u32, index: u32) -> Place
    ensures { result ≡ decoded_place place index }
{
    match place {
        0 => Place::Word(Port(index)),
        1 => Place::Ready,
        _ => Place::Head(Queue(index)),
    }
}

#[tactic(auto, unfolding(exported::specs::Decoded::decoded_kind))]
fn kind_in(kind: u32, place: Place, value: u32, old: u32) -> Access
    ensures { result ≡ decoded_kind kind place value old }
{
    match kind {
        16 => Access::Read(place),
        17 => Access::Store(place, value),
        18 => Access::Or(place, value),
        19 => Access::And(place, value),
        20 => Access::Swap(place, value),
        _ => Access::Cas(place, old, value),
    }
}

// An access has the number 256 or more.
impl From<PackedNext> for Named {
    ghost from_gives = { λ next named. named ≡ named_in (unpacked next) };

    #[tactic(auto, unfolding(evtchn_fifo::specs::Encoded::unpacked, exported::specs::Decoded::decoded_access))]
    fn from(next: PackedNext) -> Named {
        let code = lower(next.first);
        let index = upper(next.first);
        if code < 0x100 {
            return Named::Answer(Code {
                number: code,
                value: index,
            });
        }
        let place = place_in(code % 16, index);
        Named::Access(kind_in(code / 16, place, lower(next.second), upper(next.second)))
    }
}

// Whether a result is an answer with the number 0.
#[tactic(auto, unfolding(evtchn_fifo::specs::Encoded::unpacked))]
pub(crate) fn is_done(next: PackedNext) -> bool
    ensures { result ≡ eqb (unpacked next).code 0 }
{
    lower(next.first) == 0
}
