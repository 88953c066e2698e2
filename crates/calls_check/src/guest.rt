// The part of a test on a guest as a value, with what the last call or reply came to.
use crate::outcome::{Outcome, access, answer, plain_answer, refusal};
use crate::part;
use crate::part::Part;
use calls::types::{Answer, ClearCall, ClearStage, Guest, GuestOutcome, GuestStage, Next};
use calls::{clear_mask, guest, records};
use script::{Script, is};
use std::io;
use std::io::BufRead;
use word::{Port, Queue};

#[derive(Drop)]
struct GuestPart {
    now: GuestOutcome,
    kept: GuestOutcome,
}

fn made(guest: Guest) -> GuestOutcome {
    GuestOutcome {
        guest,
        next: Next::Answer(Answer::Done, 0),
    }
}

// A guest with her words, local ready bits and one head, which the script gives.
fn fresh(script: &mut Script<impl BufRead>) -> io::Result<Guest> {
    let words = script.small()?;
    let ready = script.hex()?;
    let queue = Queue(script.small()?);
    Ok(Guest {
        heads: records::with_queue([0; 16], queue, script.small()?),
        ready,
        words,
        ..records::fresh_guest()
    })
}

// A service at G2 is put under way: port, queue and count.
fn at_g2(script: &mut Script<impl BufRead>, guest: Guest) -> io::Result<Guest> {
    let port = Port(script.small()?);
    let queue = Queue(script.small()?);
    Ok(Guest {
        call: records::guest_call_at(GuestStage::G2, port, queue, script.small()?),
        ..guest
    })
}

// A clear_mask is put under way: its stage, port, word and count.
fn clearing(script: &mut Script<impl BufRead>) -> io::Result<ClearCall> {
    let stage = match script.name()?.as_slice() {
        b"read" => ClearStage::Read,
        b"cas" => ClearStage::Cas,
        _ => ClearStage::None,
    };
    let port = Port(script.small()?);
    let word = script.hex()?;
    Ok(records::clear_at(stage, port, word, script.small()?))
}

// Whether two guests have the same heads, local bits and calls under way.
fn same(a: Guest, b: Guest) -> bool {
    a == Guest {
        words: a.words,
        ..b
    }
}

impl GuestPart {
    // Whether what the script expects holds: `gave` ends a service, `cleared` a clear_mask, `told` may end neither, after `refused`
    // nothing is changed.
    fn holds(&self, script: &mut Script<impl BufRead>) -> io::Result<bool> {
        let guest = self.now.guest;
        let came = Outcome::from(self.now.next);
        let waits = Outcome::from(clear_mask::guest_due(guest));
        let kept = self.kept.guest;
        let holds = match script.name()?.as_slice() {
            b"names" => {
                let access = access(script)?;
                access == Some(came) && access == Some(waits)
            }
            b"gave" => came == answer(script)? && guest.call.stage == GuestStage::None,
            b"cleared" => {
                came == plain_answer(script)? && !records::is_clearing(guest.clear.stage)
            }
            b"told" => came == answer(script)?,
            b"refused" => came == refusal(script)? && guest == kept,
            b"head" => {
                let queue = Queue(script.small()?);
                records::at_queue(guest.heads, queue) == script.small()?
            }
            b"heads" => guest.heads == kept.heads,
            b"local" => guest.ready == script.hex()?,
            b"words" => guest.words == script.small()?,
            b"same" => same(guest, kept),
            _ => false,
        };
        Ok(holds)
    }
}

impl Part for GuestPart {
    fn command<R: BufRead>(&mut self, script: &mut Script<R>, name: &[u8]) -> io::Result<bool> {
        let guest = self.now.guest;
        match name {
            b">" => return self.holds(script),
            b"keep" => self.kept = self.now,
            b"back" => self.now = self.kept,
            b"service" => self.now = guest::service(guest),
            _ if is(name, b"clear_mask") => {
                self.now = clear_mask::clear_mask(guest, Port(script.small()?));
            }
            b"reply" => self.now = clear_mask::guest_reply(guest, script.hex()?),
            b"tell" => self.now = guest::tell(guest, script.small()?),
            b"G2" => self.now = made(at_g2(script, guest)?),
            b"clearing" => self.now = made(clear_mask::with_clear(guest, clearing(script)?)),
            b"guest" => self.now = made(fresh(script)?),
            _ => return Ok(false),
        }
        Ok(true)
    }
}

// Whether all names up to `done` are known, and all that is expected holds.
pub(crate) fn part(script: &mut Script<impl BufRead>) -> io::Result<bool> {
    let now = made(fresh(script)?);
    part::holds(script, &mut GuestPart { now, kept: now }, b"done")
}
