// The commands of the script. The names of the hypervisor's calls, `service` and `clear_mask` run a whole call; after `start`
// they start it only. A side is X or G, as in the log.
use machine::types::{GuestStart, Side, Start, Step};
use script::{Script, is};
use std::io;
use std::io::BufRead;
use word::{Port, Priority, Queue};

// How a step is made: with no line in the log; with its lines; with all further accesses of a side's call too, up to an answer.
#[derive(Clone, Copy)]
pub(crate) enum Manner {
    Silent,
    Logged,
    Whole(Side),
}

// A step; the hypervisor's access with a ledger of one entry; a raise at R5 or a service at G3 with any count is put under way; the
// log's end, also at an unknown name.
#[derive(Clone, Copy)]
pub(crate) enum Command {
    Step(Step, Manner),
    Short,
    Raise(Port, Queue, u32),
    Service(Port, Queue, u32),
    End,
}

fn logged(step: Step) -> Command {
    Command::Step(step, Manner::Logged)
}

// The access that a side waits for, and all further ones up to an answer.
pub(crate) fn go_on(side: Side) -> Command {
    Command::Step(Step::Perform(side), Manner::Whole(side))
}

// The start of a call of the hypervisor, if a name is such a call's.
fn start(script: &mut Script<impl BufRead>, name: &[u8]) -> io::Result<Option<Start>> {
    let start = match name {
        b"init" => Start::InitControl(
            script.small()?,
            script.number()?,
            script.number()?,
            script.small()?,
        ),
        b"expand" => Start::ExpandArray(script.number()?, script.number()?),
        b"bind" => Start::Bind(Port(script.small()?)),
        b"close" => Start::Close(Port(script.small()?)),
        b"raise" => Start::Raise(Port(script.small()?)),
        b"unmask" => Start::Unmask(Port(script.small()?)),
        b"priority" => Start::SetPriority(Port(script.small()?), Priority(script.small()?)),
        _ => return Ok(None),
    };
    Ok(Some(start))
}

// A call's start and its side, if a name is a call's.
fn call(script: &mut Script<impl BufRead>, name: &[u8]) -> io::Result<Option<(Step, Side)>> {
    let start = match name {
        b"service" => GuestStart::Service,
        _ if is(name, b"clear_mask") => GuestStart::ClearMask(Port(script.small()?)),
        _ => {
            let start = start(script, name)?;
            return Ok(start.map(|start| (Step::Hypervisor(start), Side::Hypervisor)));
        }
    };
    Ok(Some((Step::Guest(start), Side::Guest)))
}

fn side(script: &mut Script<impl BufRead>) -> io::Result<Side> {
    if is(script.name()?.as_slice(), b"G") {
        return Ok(Side::Guest);
    }
    Ok(Side::Hypervisor)
}

fn other(script: &mut Script<impl BufRead>, name: &[u8]) -> io::Result<Command> {
    let command = match name {
        b"mask" => logged(Step::Guest(GuestStart::Mask(Port(script.small()?)))),
        b"tell" => Command::Step(
            Step::Guest(GuestStart::Tell(script.small()?)),
            Manner::Silent,
        ),
        b"perform" => logged(Step::Perform(side(script)?)),
        b"finish" => go_on(side(script)?),
        b"reply" => logged(Step::HandBack(side(script)?, script.hex()?)),
        b"short" => Command::Short,
        b"raising" => Command::Raise(Port(script.small()?), Queue(script.small()?), script.hex()?),
        b"serving" => Command::Service(
            Port(script.small()?),
            Queue(script.small()?),
            script.hex()?,
        ),
        _ => Command::End,
    };
    Ok(command)
}

fn started(script: &mut Script<impl BufRead>) -> io::Result<Command> {
    let name = script.name()?;
    Ok(match call(script, name.as_slice())? {
        Some((step, _)) => logged(step),
        None => Command::End,
    })
}

// The script's next command.
pub(crate) fn read(script: &mut Script<impl BufRead>) -> io::Result<Command> {
    let name = script.name()?;
    if is(name.as_slice(), b"start") {
        return started(script);
    }
    match call(script, name.as_slice())? {
        Some((step, side)) => Ok(Command::Step(step, Manner::Whole(side))),
        None => other(script, name.as_slice()),
    }
}
