// A position that goes on, and one at which a replay stopped.
ghost use Rattle.std.specs.Prelude.{◌≡◌, Ok, Err, MatchOption, eqb, false};
ghost use Rattle.replay.specs.Replay.{next_line};
ghost use Rattle.replay.specs.State.{due_of, playing_after, position_of};

use crate::player::Position;
use crate::player::due::{Due, Stop};
use std::num::NonZeroUsize;

// How many lines agreed, how many bytes of the one that is being read are kept, and how many the line that is due has. The mask is C's
// number, which stays as it was lent until a line has ended; any but 0 says that the line that is due is a mask's access.
#[derive(Clone, Copy, PartialEq, Eq, Debug)]
pub(crate) struct Playing {
    pub(crate) lines: u64,
    pub(crate) line: usize,
    pub(crate) due: Option<NonZeroUsize>,
    pub(crate) mask: u32,
}

// How many lines agreed, and how many bytes are kept of the one at which it stopped.
#[derive(Clone, Copy, PartialEq, Eq, Debug)]
pub(crate) struct Stopped {
    pub(crate) lines: u64,
    pub(crate) line: usize,
    pub(crate) stop: Stop,
}

// The number of lines with one more; a number that can't move further stays.
#[tactic(auto, unfolding(crate::specs::Replay::next_line))]
pub(crate) fn next_line(lines: u64) -> u64
    ensures { result ≡ next_line lines }
{
    lines.saturating_add(1)
}

impl Playing {
    // Where a line has just ended: so many agreed, and what is due.
    pub(crate) fn after(lines: u64, due: Option<Due>) -> Playing
        ensures { result ≡ playing_after lines due }
    {
        let (due, mask) = match due {
            Some(due) => (Some(due.len), u32::from(due.masks)),
            None => (None, 0),
        };
        Playing {
            lines,
            line: 0,
            due,
            mask,
        }
    }

    pub(crate) fn due_line(self) -> Option<Due>
        ensures { result ≡ due_of self }
    {
        self.due.map(|len| Due {
            len,
            masks: self.mask != 0,
        })
    }

    // After one line more that agreed.
    pub(crate) fn next(self, due: Option<Due>) -> Playing
        ensures { result ≡ playing_after (next_line self.lines) due }
    {
        Playing::after(next_line(self.lines), due)
    }

    pub(crate) fn stopped(self, line: usize, stop: Stop) -> Stopped
        ensures { result ≡ record { lines = self.lines; line = line; stop = stop } }
    {
        Stopped {
            lines: self.lines,
            line,
            stop,
        }
    }
}

impl Position {
    // Where the replay goes on, if it has not stopped.
    #[tactic(auto, using(crate::proofs::PositionLaws::playing_is))]
    pub(crate) fn playing(self) -> Option<Playing>
        ensures { MatchOption result (eqb self.stop 0 ≡ false) (λ p. self ≡ position_of (Ok p)) }
    {
        if self.stop != 0 {
            return None;
        }
        Some(Playing {
            lines: self.lines,
            line: self.line,
            due: NonZeroUsize::new(self.due),
            mask: self.mask,
        })
    }
}

impl From<Playing> for Position {
    ghost from_gives = { λ p q. q ≡ position_of (Ok p) };

    #[tactic(auto, unfolding(crate::specs::State::position_of))]
    fn from(at: Playing) -> Position {
        let due = match at.due {
            Some(len) => len.get(),
            None => 0,
        };
        Position {
            lines: at.lines,
            line: at.line,
            due,
            mask: at.mask,
            stop: 0,
        }
    }
}

impl From<Stopped> for Position {
    ghost from_gives = { λ p q. q ≡ position_of (Err p) };

    #[tactic(auto, unfolding(crate::specs::State::position_of))]
    fn from(at: Stopped) -> Position {
        Position {
            lines: at.lines,
            line: at.line,
            due: at.stop.due(),
            mask: 0,
            stop: at.stop.kind(),
        }
    }
}
