// Records made by hand.
use crate::state::{State, uncalled};
use calls::records;
use calls::types::{Call, Domain, Owner, Stage};
use script::{Script, is};
use std::io;
use std::io::BufRead;
use word::{Port, Queue};

fn owner(name: &[u8]) -> Owner {
    match name {
        b"bind" => Owner::Bind,
        b"close" => Owner::Close,
        b"raise" => Owner::Raise,
        b"unmask" => Owner::Unmask,
        _ => Owner::None,
    }
}

fn stage(name: &[u8]) -> Stage {
    match name {
        b"R2" => Stage::R2,
        b"R3" => Stage::R3,
        b"R4" => Stage::R4,
        b"SetBusy" => Stage::SetBusy,
        _ if is(name, b"ClearBusy") => Stage::ClearBusy,
        b"R5" => Stage::R5,
        b"R6" => Stage::R6,
        _ => Stage::First,
    }
}

// A call under way: its owner, stage, port, queue, word, tries and count.
fn call(script: &mut Script<impl BufRead>) -> io::Result<Call> {
    Ok(Call {
        owner: owner(script.name()?.as_slice()),
        stage: stage(script.name()?.as_slice()),
        port: Port(script.small()?),
        queue: Queue(script.small()?),
        word: script.hex()?,
        tries: script.small()?,
        count: script.small()?,
    })
}

// Sets an entry, a tail, the pages or the call under way; whether the script names one of them.
pub(crate) fn set(state: &mut State, script: &mut Script<impl BufRead>) -> io::Result<bool> {
    let domain = state.outcome.domain;
    let changed = match script.name()?.as_slice() {
        b"entry" => {
            let port = Port(script.small()?);
            let entry = (script.hex()? & 0xFFFF) as u16;
            records::put_entry(&mut state.ledger, port, entry);
            domain
        }
        b"tail" => {
            let queue = Queue(script.small()?);
            let tails = records::with_queue(domain.tails, queue, script.small()?);
            Domain { tails, ..domain }
        }
        b"pages" => Domain {
            pages: script.small()?,
            ..domain
        },
        b"call" => records::with_call(domain, call(script)?),
        _ => return Ok(false),
    };
    state.outcome = uncalled(changed);
    Ok(true)
}
