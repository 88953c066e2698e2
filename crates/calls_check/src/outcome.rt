// What calls come to, as the script gives it too.
use calls::answer::Code;
use calls::types::{Access, Next, Place};
use script::{Script, place};
use std::io;
use std::io::BufRead;
use word::{Port, Queue};

// An access, or an answer's number and value with its count.
#[derive(Clone, Copy, PartialEq, Eq)]
pub(crate) enum Outcome {
    Access(Access),
    Answer(Code, u32),
}

impl From<Next> for Outcome {
    fn from(next: Next) -> Outcome {
        match next {
            Next::Access(access) => Outcome::Access(access),
            Next::Answer(answer, count) => Outcome::Answer(Code::from(answer), count),
        }
    }
}

pub(crate) fn answer_of(number: u32, value: u32, count: u32) -> Outcome {
    Outcome::Answer(Code { number, value }, count)
}

fn place_at(name: &[u8], index: u32) -> Option<Place> {
    match (name, index) {
        (b"word", _) => Some(Place::Word(Port(index))),
        (b"ready", 0) => Some(Place::Ready),
        (b"head", _) => Some(Place::Head(Queue(index))),
        _ => None,
    }
}

// Only a cas has an old word, and a read has no operand.
fn access_at(kind: &[u8], place: Place, old: u32, operand: u32) -> Option<Access> {
    match (kind, old, operand) {
        (b"read", 0, 0) => Some(Access::Read(place)),
        (b"store", 0, _) => Some(Access::Store(place, operand)),
        (b"or", 0, _) => Some(Access::Or(place, operand)),
        (b"and", 0, _) => Some(Access::And(place, operand)),
        (b"swap", 0, _) => Some(Access::Swap(place, operand)),
        (b"cas", _, _) => Some(Access::Cas(place, old, operand)),
        _ => None,
    }
}

// The access that the script gives: kind, place, index, old word and operand; none where no access has them. Where neither of the
// names is one of an access, the numbers are an answer's.
pub(crate) fn access(script: &mut Script<impl BufRead>) -> io::Result<Option<Outcome>> {
    let kind = script.name()?;
    let place_name = script.name()?;
    let index = script.small()?;
    let old = script.hex()?;
    let operand = script.hex()?;
    if place(kind.as_slice(), b"read store or and swap cas").is_none()
        && place(place_name.as_slice(), b"word ready head").is_none()
    {
        return Ok(Some(answer_of(index, old, operand)));
    }
    Ok(
        place_at(place_name.as_slice(), index)
            .and_then(|place| access_at(kind.as_slice(), place, old, operand))
            .map(Outcome::Access),
    )
}

// The answer that the script gives: number, value and count.
pub(crate) fn answer(script: &mut Script<impl BufRead>) -> io::Result<Outcome> {
    Ok(answer_of(script.small()?, script.small()?, script.small()?))
}

// An answer without a value: number and count.
pub(crate) fn plain_answer(script: &mut Script<impl BufRead>) -> io::Result<Outcome> {
    Ok(answer_of(script.small()?, 0, script.small()?))
}

// A refusal: its number; nothing is counted.
pub(crate) fn refusal(script: &mut Script<impl BufRead>) -> io::Result<Outcome> {
    Ok(answer_of(script.small()?, 0, 0))
}
