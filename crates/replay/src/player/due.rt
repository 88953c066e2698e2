// What is due, and what a line comes to that must be the one due.
ghost use Rattle.std.specs.Prelude.{◌≡◌, List, ◌∷◌, ℕ, take, Some, Err};
ghost use Rattle.machine.specs.Exec.{World};
ghost use Rattle.access_log.specs.Line.{bytes_of};
ghost use Rattle.access_log.specs.Read.{read_line};
ghost use Rattle.evtchn_fifo.specs.Encoded.{unpacked};
ghost use Rattle.replay.specs.Player.{misses, met};
ghost use Rattle.replay.specs.State.{stop_kind, position_due, then_answer, due_lines, result_due, after_line};

use crate::player::named::Named;
use access_log::event::code_line;
use access_log::line::{Line, put_line};
use access_log::read::read_line;
use access_log::text::starts_as;
use evtchn_fifo::encoded::PackedNext;
use machine::types::Side;
use std::num::NonZeroUsize;

// The line that is due: its length in the host's buffer, and whether it is a mask's access, after which her answer DONE is due.
#[derive(Clone, Copy, PartialEq, Eq, Debug)]
pub(crate) struct Due {
    pub(crate) len: NonZeroUsize,
    pub(crate) masks: bool,
}

// Why a replay stops at a line. Of the line that was due so many bytes are in the host's buffer; 0, where none was. C's position names
// them also where the line read is not of the form, of which the player keeps none.
#[derive(Clone, Copy, PartialEq, Eq, Debug)]
pub(crate) enum Stop {
    Differs(usize),
    NotOfTheForm(usize),
    NotLent,
}

impl Stop {
    // Its number in C.
    pub(crate) fn kind(self) -> u32
        ensures { result ≡ stop_kind self }
    {
        match self {
            Stop::Differs(_) => 1,
            Stop::NotOfTheForm(_) => 22,
            Stop::NotLent => 33,
        }
    }

    // The length that the position names.
    pub(crate) fn due(self) -> usize
        ensures { result ≡ position_due self }
    {
        match self {
            Stop::Differs(due) | Stop::NotOfTheForm(due) => due,
            Stop::NotLent => 0,
        }
    }
}

#[tactic(auto, using(crate::proofs::DueLaws::put_lem, crate::proofs::DueLaws::no_line))]
pub(crate) fn put_due(buffer: &mut [u8; 64], line: Line, masks: bool) -> Option<Due>
    ensures { due_lines result buffer.new ≡ bytes_of line ∷ then_answer masks }
{
    let len = NonZeroUsize::new(put_line(buffer, line))?;
    Some(Due { len, masks })
}

// What a call's start or a reply came to: its answer's line is due, if it gave one.
#[tactic(auto, using(crate::proofs::DueLaws::answer_due, crate::proofs::DueLaws::none_due))]
pub(crate) fn put_answer(buffer: &mut [u8; 64], side: Side, next: PackedNext) -> Option<Due>
    ensures { due_lines result buffer.new ≡ result_due side (unpacked next) }
{
    match Named::from(next) {
        Named::Answer(code) => put_due(buffer, code_line(side, code), false),
        Named::Access(_) => None,
    }
}

// The line is not the one that is due, which has so many bytes: it differs, or is not of the form.
#[tactic(auto, using(crate::proofs::DueLaws::missed_line, crate::proofs::DueLaws::missed_form))]
pub(crate) fn miss(due: usize, text: &[u8]) -> Stop
    ensures due_named { position_due result ≡ due }
    ensures missed { (k : ℕ) (bytes : List ℕ) (w : World) → after_line (Err result) k bytes w ≡ misses (take due bytes) k (read_line text.now) }
{
    match read_line(text) {
        Some(_) => Stop::Differs(due),
        None => Stop::NotOfTheForm(due),
    }
}

// The line must be the one that is due.
#[tactic(auto, using(crate::proofs::DueLaws::meets_alone, crate::proofs::DueLaws::meets_masked, crate::proofs::DueLaws::meets_not))]
pub(crate) fn meet(buffer: &mut [u8; 64], due: Due, text: &[u8]) -> Result<Option<Due>, Stop>
    ensures { (k : ℕ) (w : World) → after_line result k buffer.new w ≡ met w (due_lines (Some due) buffer.old) k text.now }
{
    let len = due.len.get();
    if !starts_as(buffer, len, text) {
        return Err(miss(len, text));
    }
    if due.masks {
        return Ok(put_due(buffer, Line::Answer(Side::Guest, 0), false));
    }
    Ok(None)
}
