// The part of a test that needs a long ledger.
use crate::outcome::{Outcome, access, answer};
use crate::part;
use crate::part::Part;
use crate::state::{begun, call, entry_is, uncalled};
use calls::types;
use script::Script;
use std::io;
use std::io::BufRead;
use word::entry::fresh_entry;

// More entries than there are ports.
pub(crate) const LONGEST: usize = 131073;

#[derive(Drop)]
struct LedgerPart<'a> {
    outcome: types::Outcome,
    ledger: &'a mut [u16],
}

impl LedgerPart<'_> {
    fn holds(&self, script: &mut Script<impl BufRead>) -> io::Result<bool> {
        let came = Outcome::from(self.outcome.next);
        let holds = match script.name()?.as_slice() {
            b"names" => access(script)? == Some(came),
            b"gave" => came == answer(script)?,
            b"entry" => entry_is(self.ledger, script.small()?, script.hex()?),
            _ => false,
        };
        Ok(holds)
    }
}

impl Part for LedgerPart<'_> {
    fn command<R: BufRead>(&mut self, script: &mut Script<R>, name: &[u8]) -> io::Result<bool> {
        match name {
            b">" => self.holds(script),
            b"begun" => {
                self.outcome = uncalled(begun(script.small()?));
                Ok(true)
            }
            _ => call(&mut self.outcome, self.ledger, script, name),
        }
    }
}

// The script gives the ledger's entries, fresh or bound, and their number; the ledger lies in the space that is lent. Whether all names
// up to `done` are known, and all that is expected holds.
pub(crate) fn part(
    script: &mut Script<impl BufRead>,
    space: &mut [u16; LONGEST],
) -> io::Result<bool> {
    let entry = match script.name()?.as_slice() {
        b"fresh" => fresh_entry(),
        b"bound" => 0x0107,
        _ => return Ok(false),
    };
    let length = script.small()? as usize;
    if length > LONGEST {
        return Ok(false);
    }
    let ledger = &mut space[..length];
    ledger.fill(entry);
    let mut part = LedgerPart {
        outcome: uncalled(begun(0)),
        ledger,
    };
    part::holds(script, &mut part, b"done")
}
