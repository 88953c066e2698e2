// The report as text.
use crate::player::Player;
use arrayvec::ArrayVec;
use std::io;

// A byte as it is shown: a tab or a printable one as it is, any other as a question mark.
fn shown(byte: u8) -> u8 {
    match byte {
        b'\t' | b' '..=b'~' => byte,
        _ => b'?',
    }
}

// The first len bytes of a text, without its newline; a word in brackets where it is empty. C's evtchn_replay_position has the
// lengths, so that a text stays an array with a length beside it.
fn print_text(rt: &impl Print, bytes: &[u8; 64], len: usize, none: &[u8]) -> io::Result<()> {
    if len == 0 {
        return rt.write_all(none);
    }
    let mut text = ArrayVec::from(*bytes);
    text.truncate(len);
    text.retain(|byte| *byte != b'\n');
    for byte in &mut text {
        *byte = shown(*byte);
    }
    rt.write_all(text.as_slice())
}

fn print_difference(rt: &impl Print, player: &Player<'_>) -> io::Result<()> {
    rt.write_all(b"the log has: ")?;
    print_text(rt, &player.line, player.position.line, b"(the log ends)")?;
    rt.write_all(b"\nwhat was due: ")?;
    print_text(rt, &player.due, player.position.due, b"(nothing)")?;
    rt.write_all(b"\n")
}

// A counter of lines, over the last one.
pub(crate) fn count(rt: &impl Eprint, lines: u64) -> io::Result<()> {
    eprint!(rt; "\r{lines} lines")
}

pub(crate) fn end_count(rt: &impl Eprint) -> io::Result<()> {
    eprint!(rt; "\r                          \r")
}

pub(crate) fn report(rt: &impl Print, player: &Player<'_>) -> io::Result<()> {
    // The kinds are those of C's evtchn_replay_result.
    let report = player.report();
    let line = report.line;
    match report.kind {
        0 => println!(rt; "all agree, {line} lines"),
        1 => {
            println!(rt; "line {line} differs")?;
            print_difference(rt, player)
        }
        22 => println!(rt; "line {line}: refused with 22 (not a line of the form)"),
        _ => {
            println!(rt;
                "line {line}: refused with 33 (an expand would add a page past those lent)"
            )
        }
    }
}
