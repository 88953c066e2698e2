// Tests of the calls against numbers worked by hand, from the script on standard input: a line for each test, then their
// number. The names are those of the readings of document 01, A1 (refusals), A2 (counts), A3 (hypervisor), A4 (guest),
// A5 (arbitrary records), and of document 02, T-05 (BUSY and clear_mask).
#![tactic(auto)]

mod domain;
mod guest;
mod ledger;
mod outcome;
mod part;
mod record;
mod state;

use crate::ledger::LONGEST;
use script::Script;
use std::io;
use std::io::{BufRead, Write};

// What the script had next.
#[derive(Clone, Copy)]
enum Item {
    Test,
    Remark,
}

// A script, where its tests are reported, and space for their long ledgers.
#[derive(Drop)]
struct Tests<'a, R, W> {
    script: Script<R>,
    out: W,
    space: &'a mut [u16; LONGEST],
}

impl<R: BufRead, W: Write> Tests<'_, R, W> {
    fn test(&mut self) -> io::Result<()> {
        self.script.line(&mut self.out)?;
        if domain::test(&mut self.script, self.space)? {
            self.out.write_all(b" ok\n")
        } else {
            self.out.write_all(b" FAILED\n")
        }
    }

    // Runs the next test or passes over the next remark, if there is one.
    fn next(&mut self) -> io::Result<Option<Item>> {
        match self.script.name()?.as_slice() {
            b"test" => {
                self.test()?;
                Ok(Some(Item::Test))
            }
            b"#" => {
                self.script.line(&mut io::sink())?;
                Ok(Some(Item::Remark))
            }
            _ => Ok(None),
        }
    }

    // A thousand tests and remarks are counted, and one more is run: a script may have no end.
    fn run(&mut self) -> io::Result<()> {
        let mut tests = 0u32;
        let mut item = self.next()?;
        for _ in 0..1000 {
            match item {
                Some(Item::Test) => tests = tests.saturating_add(1),
                Some(Item::Remark) => {}
                None => break,
            }
            item = self.next()?;
        }
        writeln!(self.out, "{tests} tests")
    }
}

fn main(rt: HostRuntime) -> io::Result<()> {
    let mut tests = Tests {
        script: Script::new(rt.reader()),
        out: io::writer(&rt),
        space: &mut [0; LONGEST],
    };
    tests.run()
}
