// Lines of the access log: their values, and their writer to bytes.
mod digits;
mod row;

ghost use Rattle.std.specs.Prelude.{◌≡◌, Some, codes};
ghost use Rattle.access_log.specs.Line.{ascii, dash, decimal, place_of, row, access_bytes, call_bytes, bytes_of};
ghost use Rattle.access_log.specs.Line.Parts.{field_of, row_of};
ghost use Rattle.access_log.specs.Text.{text, with_bytes, writing, write_of};

use crate::line::row::Field::{Dash, Number, Word};
use crate::line::row::{Field, Row, Subject};
use crate::text::Writer;
use calls::types::{Access, Place};
use machine::types::Side;
use std::error::Error;
use std::fmt;
use word::{Port, Priority};

// A call with its arguments as a line has them; the side follows from the call. init_control has VCPU, frame and offset,
// expand_array its frame.
#[derive(Clone, Copy, PartialEq, Eq)]
pub enum LoggedCall {
    InitControl(u32, u32, u32),
    ExpandArray(u32),
    Bind(Port),
    Close(Port),
    SetPriority(Port, Priority),
    Raise(Port),
    Unmask(Port),
    Service,
    Mask(Port),
    ClearMask(Port),
}

// The header; an access with the word seen, 0 of a store; an answer's number; an answer's number with its port; a call.
#[derive(Clone, Copy, PartialEq, Eq)]
pub enum Line {
    Header,
    Access(Side, Access, u32),
    Answer(Side, u32),
    PortAnswer(Side, u32, Port),
    Call(LoggedCall),
}

// The buffer is too short for the line.
#[derive(Clone, Copy, PartialEq, Eq, Debug)]
pub struct TooShort;

impl fmt::Display for TooShort {
    ghost output = { λ _. Some (codes "the buffer is too short for the line") };

    fn fmt<W: fmt::Write>(&self, f: &mut fmt::Formatter<W>) -> fmt::Result {
        f.write_str("the buffer is too short for the line")
    }
}

impl Error for TooShort {}

// An access: its kind, its place and three fields more.
#[tactic(auto, unfolding(crate::specs::Line::Parts::row_of, crate::specs::Line::Parts::subject_of, crate::specs::Line::Parts::fields_of, crate::specs::Line::Parts::field_of, crate::specs::Line::row))]
fn place_row(
    side: Side,
    kind: &'static [u8],
    place: Place,
    old: Field,
    operand: Field,
    seen: Field,
) -> Row
    ensures { row_of result ≡ row side kind.now (place_of place) (field_of old) (field_of operand) (field_of seen) }
{
    Row {
        side,
        kind,
        subject: Subject::Place(place),
        fields: [old, operand, seen],
    }
}

// A read has no operand, a store sees nothing, only a cas has an old word.
#[tactic(auto, unfolding(crate::specs::Line::Parts::field_of, crate::specs::Line::access_bytes))]
fn access_row(side: Side, access: Access, seen: u32) -> Row
    ensures { row_of result ≡ access_bytes side access seen }
{
    let seen = Word(seen);
    match access {
        Access::Read(p) => place_row(side, b"read", p, Dash, Dash, seen),
        Access::Store(p, word) => place_row(side, b"store", p, Dash, Word(word), Dash),
        Access::Or(p, word) => place_row(side, b"or", p, Dash, Word(word), seen),
        Access::And(p, word) => place_row(side, b"and", p, Dash, Word(word), seen),
        Access::Swap(p, word) => place_row(side, b"swap", p, Dash, Word(word), seen),
        Access::Cas(p, old, new) => place_row(side, b"cas", p, Word(old), Word(new), seen),
    }
}

// A call with three fields after its name.
#[tactic(auto, unfolding(crate::specs::Line::Parts::row_of, crate::specs::Line::Parts::subject_of, crate::specs::Line::Parts::fields_of, crate::specs::Line::Parts::field_of, crate::specs::Line::row))]
fn named_call(side: Side, name: &'static [u8], first: Field, second: Field, third: Field) -> Row
    ensures { row_of result ≡ row side (ascii "call") name.now (field_of first) (field_of second) (field_of third) }
{
    Row {
        side,
        kind: b"call",
        subject: Subject::Name(name),
        fields: [first, second, third],
    }
}

// A call of which a line has the port alone.
#[tactic(auto, unfolding(crate::specs::Line::Parts::field_of))]
fn port_call(side: Side, name: &'static [u8], port: Port) -> Row
    ensures { row_of result ≡ row side (ascii "call") name.now (decimal port.0) dash dash }
{
    named_call(side, name, Number(port.0), Dash, Dash)
}

#[tactic(auto, unfolding(crate::specs::Line::Parts::field_of, crate::specs::Line::call_bytes))]
fn call_row(call: LoggedCall) -> Row
    ensures { row_of result ≡ call_bytes call }
{
    let hypervisor = Side::Hypervisor;
    match call {
        LoggedCall::InitControl(vcpu, frame, offset) => {
            named_call(
                hypervisor,
                b"init_control",
                Number(vcpu),
                Number(frame),
                Number(offset),
            )
        }
        LoggedCall::ExpandArray(frame) => {
            named_call(hypervisor, b"expand_array", Dash, Number(frame), Dash)
        }
        LoggedCall::Bind(port) => port_call(hypervisor, b"bind", port),
        LoggedCall::Close(port) => port_call(hypervisor, b"close", port),
        LoggedCall::SetPriority(port, priority) => {
            named_call(
                hypervisor,
                b"set_priority",
                Number(port.0),
                Number(priority.0),
                Dash,
            )
        }
        LoggedCall::Raise(port) => port_call(hypervisor, b"raise", port),
        LoggedCall::Unmask(port) => port_call(hypervisor, b"unmask", port),
        LoggedCall::Service => named_call(Side::Guest, b"service", Dash, Dash, Dash),
        LoggedCall::Mask(port) => port_call(Side::Guest, b"mask", port),
        LoggedCall::ClearMask(port) => port_call(Side::Guest, b"clear_mask", port),
    }
}

#[tactic(auto, unfolding(crate::specs::Line::Parts::row_of, crate::specs::Line::Parts::subject_of, crate::specs::Line::Parts::fields_of, crate::specs::Line::Parts::field_of, crate::specs::Line::row))]
fn answer_row(side: Side, number: u32, port: Field) -> Row
    ensures { row_of result ≡ row side (ascii "answer") (decimal number) (field_of port) dash dash }
{
    Row {
        side,
        kind: b"answer",
        subject: Subject::Number(number),
        fields: [port, Dash, Dash],
    }
}

// A line at the start of a buffer, as far as it fits; the place after it, and no slice, as in text.rt.
#[tactic(auto, unfolding(crate::specs::Line::Parts::field_of, crate::specs::Line::bytes_of))]
pub fn put_line(out: &mut [u8], line: Line) -> usize
    ensures { text out.new result ≡ with_bytes (text out.old 0) (bytes_of line) }
{
    let mut writer = Writer::new(out, 0);
    let row = match line {
        Line::Header => {
            writer.bytes(b"accesses\t1\n");
            return writer.len;
        }
        Line::Access(side, access, seen) => access_row(side, access, seen),
        Line::Answer(side, number) => answer_row(side, number, Dash),
        Line::PortAnswer(side, number, port) => answer_row(side, number, Number(port.0)),
        Line::Call(call) => call_row(call),
    };
    writer.row(&row);
    writer.len
}

// A line's bytes, in a buffer that every line fits.
pub(crate) fn line_text(buffer: &mut [u8; 64], line: Line) -> &[u8]
    ensures { result.now ≡ bytes_of line }
{
    let len = put_line(buffer, line);
    &buffer[..len]
}

// Writes a line to the start of out, and returns its length; where out is too short, it stays as it is.
#[tactic(auto, unfolding(crate::specs::Text::write_of))]
pub fn write_line(out: &mut [u8], line: Line) -> Result<usize, TooShort>
    ensures { writing result out.new ≡ write_of (bytes_of line) out.old }
{
    let mut buffer = [0u8; 64];
    let text = line_text(&mut buffer, line);
    if out.len() < text.len() {
        return Err(TooShort);
    }
    out[..text.len()].copy_from_slice(text);
    Ok(text.len())
}
