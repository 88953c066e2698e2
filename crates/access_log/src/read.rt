// The reader of a line: it guesses a line from the fields, writes the guess, and takes it exactly if that is the text.
ghost use Rattle.std.specs.Prelude.{◌≡◌, ◌≤◌, get_or, drop, ltb, position};
ghost use Rattle.access_log.specs.Line.{bytes_of};
ghost use Rattle.access_log.specs.Read.{field, after, digit_value, value, guess_side, guess_place, guess_access, guess_call, guess_answer, guess_from, guess, kind_of, call_in, read_line};
ghost use Rattle.access_log.specs.Text.{same};

use crate::event::code_line;
use crate::line::{Line, LoggedCall, line_text};
use crate::text::same;
use calls::answer::Code;
use calls::types::{Access, Place};
use machine::types::Side;
use word::{Port, Priority, Queue};

// What a text would be, if it is a line: an access is of a side.
#[derive(Clone, Copy, PartialEq, Eq)]
pub enum Kind {
    Header,
    Access(Side),
    Answer,
    Call,
}

// Where the field that a text starts with ends: at the first byte below 32.
fn field_end(s: &[u8]) -> Option<usize>
    ensures { result ≡ position (λ c. ltb c 32) s.now }
{
    s.iter().position(|&c| c < 32)
}

// The field that a text starts with, and what follows the byte that ends it.
#[tactic(auto, using(crate::proofs::ScanLaws::field_split, crate::proofs::ScanLaws::after_split, crate::proofs::ScanLaws::field_whole, crate::proofs::ScanLaws::after_whole))]
fn split_field(s: &[u8]) -> (&[u8], &[u8])
    ensures field { result.0.now ≡ field s.now }
    ensures after { result.1.now ≡ after s.now }
{
    match field_end(s) {
        Some(end) => (&s[..end], &s[end + 1..]),
        None => (s, &[]),
    }
}

fn digit_value(c: u8) -> u64
    ensures { result ≡ digit_value c }
{
    let d = u64::from(c);
    d % 16 + d / 64 * 9
}

// The number that digits make in a base, reduced to 32 bits.
fn number(s: &[u8], base: u64) -> u32
    requires { base ≤ 16 }
    ensures { result ≡ value base s.now }
{
    s.iter().fold(
        0,
        |n: u32, &c| ((u64::from(n) * base + digit_value(c)) % 4294967296) as u32,
    )
}

fn guess_side(f: &[u8]) -> Side
    ensures { result ≡ guess_side f.now }
{
    if same(f, b"X") {
        Side::Hypervisor
    } else {
        Side::Guest
    }
}

fn guess_place(h: &[u8]) -> Place
    ensures { result ≡ guess_place h.now }
{
    match h {
        [b'w', digits @ ..] => Place::Word(Port(number(digits, 10))),
        [b'h', digits @ ..] => Place::Head(Queue(number(digits, 10))),
        _ => Place::Ready,
    }
}

// A chain of tests, and no match on the names: of such a match the prover leaves each arm open and 19 more goals of the last one.
fn guess_access(side: Side, place: Place, kind: &[u8], old: u32, operand: u32, seen: u32) -> Line
    ensures { result ≡ guess_access side place kind.now old operand seen }
{
    if same(kind, b"read") {
        Line::Access(side, Access::Read(place), seen)
    } else if same(kind, b"store") {
        Line::Access(side, Access::Store(place, operand), 0)
    } else if same(kind, b"or") {
        Line::Access(side, Access::Or(place, operand), seen)
    } else if same(kind, b"and") {
        Line::Access(side, Access::And(place, operand), seen)
    } else if same(kind, b"swap") {
        Line::Access(side, Access::Swap(place, operand), seen)
    } else {
        Line::Access(side, Access::Cas(place, old, operand), seen)
    }
}

// A chain of tests, as in guess_access.
fn guess_call(name: &[u8], first: u32, second: u32, third: u32) -> LoggedCall
    ensures { result ≡ guess_call name.now first second third }
{
    let port = Port(first);
    if same(name, b"raise") {
        LoggedCall::Raise(port)
    } else if same(name, b"service") {
        LoggedCall::Service
    } else if same(name, b"mask") {
        LoggedCall::Mask(port)
    } else if same(name, b"unmask") {
        LoggedCall::Unmask(port)
    } else if same(name, b"clear_mask") {
        LoggedCall::ClearMask(port)
    } else if same(name, b"bind") {
        LoggedCall::Bind(port)
    } else if same(name, b"close") {
        LoggedCall::Close(port)
    } else if same(name, b"set_priority") {
        LoggedCall::SetPriority(port, Priority(second))
    } else if same(name, b"expand_array") {
        LoggedCall::ExpandArray(second)
    } else {
        LoggedCall::InitControl(first, second, third)
    }
}

// The line that a text would be, if it is one.
#[tactic(auto, unfolding(crate::specs::Read::guess, crate::specs::Read::guess_from))]
fn guess(s: &[u8]) -> Line
    ensures { result ≡ guess s.now }
{
    let (f, s) = split_field(s);
    let (g, s) = split_field(s);
    let (h, s) = split_field(s);
    let (i, s) = split_field(s);
    let (j, s) = split_field(s);
    let (k, _) = split_field(s);
    if same(f, b"accesses") {
        Line::Header
    } else if same(g, b"answer") {
        code_line(
            guess_side(f),
            Code {
                number: number(h, 10),
                value: number(i, 10),
            },
        )
    } else if same(g, b"call") {
        Line::Call(guess_call(h, number(i, 10), number(j, 10), number(k, 10)))
    } else {
        guess_access(
            guess_side(f),
            guess_place(h),
            g,
            number(i, 16),
            number(j, 16),
            number(k, 16),
        )
    }
}

// What a text would be, by its first two fields; after a header's first nothing is read.
#[tactic(auto, using(crate::proofs::KindLaws::kind_told))]
pub fn kind_of(s: &[u8]) -> Kind
    ensures { result ≡ kind_of (guess s.now) }
{
    let (f, s) = split_field(s);
    if same(f, b"accesses") {
        return Kind::Header;
    }
    let (g, _) = split_field(s);
    if same(g, b"answer") {
        Kind::Answer
    } else if same(g, b"call") {
        Kind::Call
    } else {
        Kind::Access(guess_side(f))
    }
}

// The call that a text would be.
#[tactic(auto, unfolding(crate::specs::Read::call_in))]
pub fn call_in(s: &[u8]) -> LoggedCall
    ensures { result ≡ call_in s.now }
{
    let (_, s) = split_field(s);
    let (_, s) = split_field(s);
    let (name, s) = split_field(s);
    let (first, s) = split_field(s);
    let (second, s) = split_field(s);
    let (third, _) = split_field(s);
    guess_call(
        name,
        number(first, 10),
        number(second, 10),
        number(third, 10),
    )
}

// The line that a text is, its newline included; none of a text that is not of the form.
#[tactic(auto, unfolding(crate::specs::Read::read_line))]
pub fn read_line(s: &[u8]) -> Option<Line>
    ensures { result ≡ read_line s.now }
{
    let line = guess(s);
    let mut buffer = [0u8; 64];
    if same(line_text(&mut buffer, line), s) {
        Some(line)
    } else {
        None
    }
}
