// A position in a log that is played: its start, what a piece of the log makes of it, and its report. Records, ledger, pages, control
// block and texts are the host's, lent and changed in place.
mod access;
mod call;
mod due;
mod feed;
mod lent;
mod line;
mod named;
mod progress;

ghost use Rattle.std.specs.Prelude.{◌≡◌, List, [], ℕ, length};
ghost use Rattle.word.specs.Word.{link_bits};
ghost use Rattle.machine.specs.Exec.{World};
ghost use Rattle.evtchn_fifo.specs.Ledger.{entries};
ghost use Rattle.replay.specs.Replay.{starts};
ghost use Rattle.replay.specs.Player.{feed, fed, reports};
ghost use Rattle.replay.specs.State.{world_in, feed_at};

use crate::player::due::put_due;
use crate::player::lent::Lent;
use crate::player::progress::{Playing, next_line};
use access_log::line::Line;
use evtchn_fifo::guest::evtchn_fifo_bytes_fresh_guest;
use evtchn_fifo::hypervisor::evtchn_fifo_bytes_fresh_domain;
use evtchn_fifo::ledger::evtchn_fifo_bytes_fresh_ledger;

// C's evtchn_replay_position, so kinds are numbers and lengths stand beside buffers; within, `Playing` and `Stopped` stand for it.
// How many lines agreed; the length of the line that is being read, or of the one at which it stopped; the length of the line that is
// due, 0 where none is; 1 where that is a mask's access, whose answer is due after it; 0, or the kind of the report at which it
// stopped: 1, 22 or 33.
#[repr(C)]
#[derive(Clone, Copy, PartialEq, Eq, Debug)]
pub struct Position {
    pub lines: u64,
    pub line: usize,
    pub due: usize,
    pub mask: u32,
    pub stop: u32,
}

// C's evtchn_replay_result, so the kind is a number. 0: all agree, with the number of lines; else the kind with the line's number.
#[repr(C)]
#[derive(Clone, Copy, PartialEq, Eq, Debug)]
pub struct Report {
    pub kind: u32,
    pub line: u64,
}

// The start: all that is lent is made fresh, whatever it held, and the header is due. Here and below the parameters are C's; within,
// `Lent` stands for those that go together.
pub fn evtchn_replay_bytes_start(
    domain: &mut [u8; 100],
    ledger: &mut [u8],
    guest: &mut [u8; 104],
    words: &mut [u32],
    block: &mut [u32; 18],
    due: &mut [u8; 64],
) -> Position
    ensures { (line : List ℕ) → feed_at result line due.new (world_in domain.new ledger.new guest.new words.new block.new) ≡ feed (starts (entries ledger.old) (length words.old)) [] }
{
    evtchn_fifo_bytes_fresh_domain(domain);
    evtchn_fifo_bytes_fresh_ledger(ledger);
    evtchn_fifo_bytes_fresh_guest(guest);
    words.fill(0);
    block.fill(0);
    Position::from(Playing::after(0, put_due(due, Line::Header, false)))
}

// A piece of the log.
#[tactic(auto, using(crate::proofs::FeedLaws::over_stays, crate::proofs::PositionLaws::position_feeds))]
pub fn evtchn_replay_bytes_feed(
    position: Position,
    domain: &mut [u8; 100],
    ledger: &mut [u8],
    guest: &mut [u8; 104],
    words: &mut [u32],
    block: &mut [u32; 18],
    line: &mut [u8; 64],
    due: &mut [u8; 64],
    text: &[u8],
) -> Position
    ensures { feed_at result line.new due.new (world_in domain.new ledger.new guest.new words.new block.new) ≡ fed link_bits (feed_at position line.old due.old (world_in domain.old ledger.old guest.old words.old block.old)) text.now }
{
    let Some(playing) = position.playing() else {
        return position;
    };
    let mut lent = Lent {
        domain,
        ledger,
        guest,
        words,
        block,
        due,
    };
    match lent.feed(playing, line, text) {
        Ok(playing) => Position::from(playing),
        Err(stopped) => Position::from(stopped),
    }
}

// The report, if the log ends here.
#[tactic(auto, using(crate::proofs::FeedLaws::ends_agree, crate::proofs::FeedLaws::ends_due, crate::proofs::FeedLaws::ends_torn, crate::proofs::FeedLaws::ends_stopped))]
pub fn evtchn_replay_bytes_report(position: Position) -> Report
    ensures { (line due : List ℕ) (w : World) → length line ≡ 64 → result ≡ reports (feed_at position line due w) }
{
    let after = next_line(position.lines);
    if position.stop != 0 {
        return Report {
            kind: position.stop,
            line: after,
        };
    }
    if position.line != 0 {
        return Report {
            kind: 22,
            line: after,
        };
    }
    if position.due != 0 {
        return Report {
            kind: 1,
            line: after,
        };
    }
    Report {
        kind: 0,
        line: position.lines,
    }
}
