// A test: commands on a state, and after `>` what is expected of it. `keep` keeps the state, `back` goes back to it.
use crate::ledger::LONGEST;
use crate::outcome::{Outcome, access, answer, answer_of, plain_answer, refusal};
use crate::part::{Part, holds};
use crate::state::{State, begun, call, entry_is};
use crate::{guest, ledger, record};
use calls::hypervisor::due;
use calls::records;
use calls::types::{Access, Next, Place};
use script::Script;
use std::io;
use std::io::BufRead;
use word::{Port, Queue};

// The state, the one that is kept, and space for the parts on a long ledger.
#[derive(Drop)]
struct DomainPart<'a> {
    now: State,
    kept: State,
    space: &'a mut [u16; LONGEST],
}

// What a mask of a port with so many words comes to: its access, if it is made, and its answer.
fn mask(port: u32, words: u32) -> (Option<Access>, Outcome) {
    match calls::guest::mask(Port(port), words) {
        Ok(made) => {
            let came = Outcome::from(Next::Answer(made.answer, made.count));
            (Some(made.access), came)
        }
        Err(refused) => {
            let came = Outcome::from(Next::Answer(refused.answer, refused.count));
            (None, came)
        }
    }
}

impl DomainPart<'_> {
    // Whether what the script expects holds: `names` names an access that the record waits for too, `answers` ends a call, after
    // `refused` nothing is changed.
    fn holds(&self, script: &mut Script<impl BufRead>) -> io::Result<bool> {
        let domain = self.now.outcome.domain;
        let came = Outcome::from(self.now.outcome.next);
        let waits = Outcome::from(due(domain));
        let holds = match script.name()?.as_slice() {
            b"refused" => came == refusal(script)? && self.now.is_same(&self.kept),
            b"same" => self.now.is_same(&self.kept),
            b"changed" => !self.now.is_same(&self.kept),
            b"names" => {
                let access = access(script)?;
                access == Some(came) && access == Some(waits)
            }
            b"waits" => access(script)? == Some(waits),
            b"gave" => came == answer(script)?,
            b"answers" => came == plain_answer(script)? && records::is_free(domain.call.owner),
            b"entry" => entry_is(&self.now.ledger, script.small()?, script.hex()?),
            b"tail" => {
                let queue = Queue(script.small()?);
                records::at_queue(domain.tails, queue) == script.small()?
            }
            b"count" => domain.call.count == script.small()?,
            b"mask" => {
                let port = script.small()?;
                let made = Access::Or(Place::Word(Port(port)), 0x4000_0000);
                mask(port, script.small()?) == (Some(made), answer_of(0, 0, 1))
            }
            b"nomask" => {
                let (access, came) = mask(script.small()?, script.small()?);
                access.is_none() && came == refusal(script)?
            }
            _ => false,
        };
        Ok(holds)
    }
}

impl Part for DomainPart<'_> {
    fn command<R: BufRead>(&mut self, script: &mut Script<R>, name: &[u8]) -> io::Result<bool> {
        match name {
            b">" => return self.holds(script),
            b"guest" => return guest::part(script),
            b"ledger" => return ledger::part(script, self.space),
            b"set" => return record::set(&mut self.now, script),
            b"keep" => self.kept = self.now,
            b"back" => self.now = self.kept,
            b"short" => self.now.reply_short(script.hex()?),
            b"begun" => self.now = State::with_fresh_ledger(begun(script.small()?)),
            b"fresh" => self.now = State::with_fresh_ledger(records::fresh_domain()),
            _ => return call(&mut self.now.outcome, &mut self.now.ledger, script, name),
        }
        Ok(true)
    }
}

// Whether all names up to `end` are known, and all that is expected holds.
pub(crate) fn test(
    script: &mut Script<impl BufRead>,
    space: &mut [u16; LONGEST],
) -> io::Result<bool> {
    let now = State::with_fresh_ledger(records::fresh_domain());
    let mut test = DomainPart {
        now,
        kept: now,
        space,
    };
    holds(script, &mut test, b"end")
}
