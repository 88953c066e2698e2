// Plays the log that the first argument names, or standard input, over as many pages as the second says (128 at most, and where
// there is none) and a ledger for every port, and prints the report in one line; where a line differs, what the log has and what
// was due in two more.
#![tactic(auto)]

mod player;
mod print;

ghost use Rattle.std.specs.Prelude.{◌≤◌, length, IfOk};

use crate::player::Player;
use std::env::FillError;
use std::io::Read;
use std::rt::{Env, Files};
use std::{fs, io, str};

// The bytes that are read at a time.
const PIECE: usize = 65536;

// The log's file; none, for standard input, where no file or a dash is named. `env::args` would refuse a log on standard input too
// where some other argument is no text.
fn opened<R: Env + Files>(rt: &R) -> io::Result<Option<R::File>> {
    let mut space = [0u8; 4096];
    let name = match rt.arg(1, &mut space) {
        Ok(n) => &space[..n],
        Err(FillError::NotPresent) => return Ok(None),
        Err(FillError::TooLong) => b"",
    };
    if name == b"-".as_slice() {
        return Ok(None);
    }
    let Ok(path) = str::from_utf8(name) else {
        return Err(io::Error::from(io::ErrorKind::InvalidFilename));
    };
    Ok(Some(fs::open(rt, path)?))
}

// A number with a decimal digit more; from 128 on it stays.
fn with_digit(value: usize, digit: u8) -> usize {
    if value < 128 {
        value * 10 + usize::from(digit % 16)
    } else {
        value
    }
}

// The number of pages lent: the second argument, 128 where that is less or there is none, 0 where it has more than 16 digits. A byte
// that is no digit counts too, so that `parse` would refuse what this takes.
fn pages(rt: &impl Env) -> usize
    ensures { result ≤ 128 }
{
    let mut space = [0u8; 16];
    match rt.arg(2, &mut space) {
        Ok(n) => space[..n]
            .iter()
            .fold(0, |value, digit| with_digit(value, *digit))
            .min(128),
        Err(FillError::NotPresent) => 128,
        Err(FillError::TooLong) => 0,
    }
}

// Whether a counter of lines is shown on standard error: where there is a third argument.
fn counts(rt: &impl Env) -> bool {
    !matches!(rt.arg(3, &mut []), Err(FillError::NotPresent))
}

// Reads until the space is full or the log ends, and returns how many bytes it read. An error ends it, also of a read that was
// interrupted, which std's `read_exact` would try again.
fn read_full(log: &mut impl Read, space: &mut [u8]) -> io::Result<usize>
    ensures { IfOk result (λ n. n ≤ length space.new) }
{
    let mut done = 0;
    while done < space.len() {
        let n = log.read(&mut space[done..])?;
        if n == 0 {
            break;
        }
        done += n;
    }
    Ok(done)
}

// Plays what the log gives over what is lent, up to its end or to the first line that does not agree, and prints the report.
fn play(
    rt: &(impl Env + Print + Eprint),
    log: &mut impl Read,
    ledger: &mut [u8],
    words: &mut [u32],
) -> io::Result<()> {
    let shown = counts(rt);
    let count = (pages(rt) * 1024).min(words.len());
    let mut player = Player::fresh(ledger, &mut words[..count]);
    let mut piece = [0; PIECE];
    // A log may have no end.
    for turn in 0..1u64 << 40 {
        let n = read_full(log, &mut piece)?;
        player.feed(&piece[..n]);
        if shown && turn % 128 == 0 {
            print::count(rt, player.position.lines)?;
        }
        if n == 0 || player.position.stop != 0 {
            break;
        }
    }
    if shown {
        print::end_count(rt)?;
    }
    print::report(rt, &player)
}

// The same over a ledger and pages for every port.
fn run(rt: &(impl Env + Print + Eprint), log: &mut impl Read) -> io::Result<()> {
    let mut ledger = [0; 262144];
    let mut words = [0; 131072];
    play(rt, log, &mut ledger, &mut words)
}

fn main(rt: HostRuntime) -> io::Result<()> {
    match opened(&rt) {
        Err(error) => eprintln!(rt; "evtchn_replay: the log can't be read: {error}"),
        Ok(None) => run(&rt, &mut rt.stdin()),
        Ok(Some(mut file)) => run(&rt, &mut file),
    }
}
