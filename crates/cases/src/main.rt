// Runs the logs of the script on standard input: C1 to C12, the paths that they leave out, the edges. Prints each whole
// access log after its title, then a summary line with the counts of its answers in their order.
#![tactic(auto)]

mod command;
mod log;
mod world;

use crate::log::print_log;
use script::Script;
use std::io;
use std::io::{BufRead, Write};
use word::entry::fresh_entry;

// A script, and where its logs are printed.
#[derive(Drop)]
struct Logs<R, W> {
    script: Script<R>,
    out: W,
}

impl<R: BufRead, W: Write> Logs<R, W> {
    fn log(&mut self) -> io::Result<()> {
        let mut ledger = [fresh_entry(); 2048];
        let mut words = [0; 2048];
        print_log(&mut self.script, &mut self.out, &mut ledger, &mut words)
    }

    // A log with an entry and a word for every port.
    fn large_log(&mut self) -> io::Result<()> {
        let mut ledger = [fresh_entry(); 131072];
        let mut words = [0; 131072];
        print_log(&mut self.script, &mut self.out, &mut ledger, &mut words)
    }

    // The script's next log or remark; whether there was one.
    fn next(&mut self) -> io::Result<bool> {
        match self.script.name()?.as_slice() {
            b"log" => self.log()?,
            b"large" => self.large_log()?,
            b"#" => self.script.line(&mut io::sink())?,
            _ => return Ok(false),
        }
        Ok(true)
    }
}

fn main(rt: HostRuntime) -> io::Result<()> {
    let mut logs = Logs {
        script: Script::new(rt.reader()),
        out: io::writer(&rt),
    };
    // A thousand logs and remarks at most: a script may have no end.
    for _ in 0..1000 {
        if !logs.next()? {
            break;
        }
    }
    Ok(())
}
