// A domain and its ledger, what the last call or reply came to, and the calls on them.
use calls::types::{Answer, Domain, Next, Outcome};
use calls::{hypervisor, records};
use script::Script;
use std::io;
use std::io::BufRead;
use word::entry::fresh_entry;
use word::{Port, Priority};

// What a test is on, with a ledger of sixteen entries.
#[derive(Clone, Copy)]
pub(crate) struct State {
    pub outcome: Outcome,
    pub ledger: [u16; 16],
}

// A domain with an array of so many pages, and the control block given.
pub(crate) fn begun(pages: u32) -> Domain {
    Domain {
        given: true,
        pages,
        ..records::fresh_domain()
    }
}

// Nothing is called.
pub(crate) fn uncalled(domain: Domain) -> Outcome {
    Outcome {
        domain,
        next: Next::Answer(Answer::Done, 0),
    }
}

// The call or reply that the script gives; whether its name is one's.
pub(crate) fn call(
    outcome: &mut Outcome,
    ledger: &mut [u16],
    script: &mut Script<impl BufRead>,
    name: &[u8],
) -> io::Result<bool> {
    let domain = outcome.domain;
    *outcome = match name {
        b"reply" => hypervisor::reply(domain, ledger, script.hex()?),
        b"init" => hypervisor::init_control(
            domain,
            script.small()?,
            script.number()?,
            script.number()?,
            script.small()?,
        ),
        b"expand" => hypervisor::expand_array(domain, script.number()?, script.number()?),
        b"bind" => hypervisor::bind(domain, ledger, Port(script.small()?)),
        b"close" => hypervisor::close(domain, ledger, Port(script.small()?)),
        b"raise" => hypervisor::raise(domain, ledger, Port(script.small()?)),
        b"unmask" => hypervisor::unmask(domain, ledger, Port(script.small()?)),
        b"priority" => {
            let port = Port(script.small()?);
            hypervisor::set_priority(domain, ledger, port, Priority(script.small()?))
        }
        _ => return Ok(false),
    };
    Ok(true)
}

pub(crate) fn entry_is(ledger: &[u16], port: u32, entry: u32) -> bool {
    records::entry_at(ledger, Port(port)).map(u32::from) == Some(entry)
}

impl State {
    pub(crate) fn with_fresh_ledger(domain: Domain) -> State {
        State {
            outcome: uncalled(domain),
            ledger: [fresh_entry(); 16],
        }
    }

    // A reply with a ledger of one entry.
    pub(crate) fn reply_short(&mut self, word: u32) {
        self.outcome = hypervisor::reply(self.outcome.domain, &mut [fresh_entry()], word);
    }

    // Whether two states have the same record and ledger.
    pub(crate) fn is_same(&self, other: &State) -> bool {
        self.outcome.domain == other.outcome.domain && self.ledger == other.ledger
    }
}
