// Runs a log's commands and prints it: a line for each access, once its reply is accepted, and for each answer but a tell's.
use crate::command;
use crate::command::{Command, Manner};
use crate::world::World;
use access_log::event::{access_line, line_of};
use access_log::line::{Line, put_line};
use arrayvec::ArrayVec;
use calls::types::{Answer, Next};
use machine::types::{Advance, Event, Side, Step};
use script::Script;
use std::io;
use std::io::{BufRead, Write};

// A log under way: the side whose whole call goes on, and the counts of the first 256 answers printed.
#[derive(Drop)]
struct Log<'s, 'o, 'w, R, W> {
    script: &'s mut Script<R>,
    out: &'o mut W,
    world: World<'w>,
    going_on: Option<Side>,
    counts: ArrayVec<u32, 256>,
}

// An answer with its count, if an event is one.
fn answer_of(event: Event) -> Option<(Answer, u32)> {
    match event {
        Event::HypervisorAnswer(answer, count) | Event::GuestAnswer(answer, count) => {
            Some((answer, count))
        }
        _ => None,
    }
}

impl<R: BufRead, W: Write> Log<'_, '_, '_, R, W> {
    fn print_line(&mut self, line: Line) -> io::Result<()> {
        // Fixed space with its length: put_line writes to what is lent.
        let mut space = [0u8; 64];
        let len = put_line(&mut space, line);
        match space.get(..len) {
            Some(text) => self.out.write_all(text),
            None => Ok(()),
        }
    }

    fn print_event(&mut self, event: Event) -> io::Result<()> {
        match line_of(event) {
            Some(line) => self.print_line(line),
            None => Ok(()),
        }
    }

    // The access that a reply alone is for: it is in the log, and is not made.
    fn print_reply(&mut self, step: Step) -> io::Result<()> {
        if let Step::HandBack(side, word) = step
            && let Next::Access(access) = self.world.due(side)
        {
            return self.print_line(access_line(side, access, word));
        }
        Ok(())
    }

    // The lines of a step that is not silent, and its answer. An access whose reply 14 refuses is logged with the reply that is
    // accepted.
    fn print(&mut self, advance: Advance) -> io::Result<Option<Answer>> {
        let answer = answer_of(advance.answer);
        if !matches!(answer, Some((Answer::NoEntry, _))) {
            self.print_event(advance.access)?;
        }
        self.print_event(advance.answer)?;
        let Some((answer, count)) = answer else {
            return Ok(None);
        };
        if !self.counts.is_full() {
            self.counts.push(count);
        }
        Ok(Some(answer))
    }

    // Goes on with a whole call that gave no answer.
    fn after(&mut self, advance: Advance, manner: Manner) -> io::Result<()> {
        if matches!(manner, Manner::Silent) {
            return Ok(());
        }
        let answer = self.print(advance)?;
        if let Manner::Whole(side) = manner
            && answer.is_none()
        {
            self.going_on = Some(side);
        }
        Ok(())
    }

    // The access that a whole call waits for, or else the script's next command.
    fn next(&mut self) -> io::Result<Command> {
        match self.going_on.take() {
            Some(side) if self.world.is_busy(side) => Ok(command::go_on(side)),
            _ => command::read(self.script),
        }
    }

    // Whether the log goes on after its next command.
    fn turn(&mut self) -> io::Result<bool> {
        match self.next()? {
            Command::Step(step, manner) => {
                self.print_reply(step)?;
                let advance = self.world.advance(step);
                self.after(advance, manner)?;
            }
            Command::Short => {
                let advance = self.world.advance_short();
                self.after(advance, Manner::Logged)?;
            }
            Command::Raise(port, queue, count) => self.world.put_raise(port, queue, count),
            Command::Service(port, queue, count) => self.world.put_service(port, queue, count),
            Command::End => return Ok(false),
        }
        Ok(true)
    }

    // The summary line.
    fn print_counts(&mut self) -> io::Result<()> {
        self.out.write_all(b"counts")?;
        for count in &self.counts {
            write!(self.out, "\t{count}")?;
        }
        self.out.write_all(b"\n")
    }
}

// A log from its title on, from fresh records, on a ledger and words that are lent; its first 10,000 turns, since a script may have
// no end.
pub(crate) fn print_log<'w>(
    script: &mut Script<impl BufRead>,
    out: &mut impl Write,
    ledger: &'w mut [u16],
    words: &'w mut [u32],
) -> io::Result<()> {
    script.line(out)?;
    out.write_all(b"\n")?;
    let mut log = Log {
        script,
        out,
        world: World::fresh(ledger, words),
        going_on: None,
        counts: ArrayVec::new(),
    };
    log.print_line(Line::Header)?;
    for _ in 0..10000 {
        if !log.turn()? {
            break;
        }
    }
    log.print_counts()
}
