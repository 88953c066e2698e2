// An end of a cable: a domain's number and a port, as one number, and with the domain's record and ledger.
ghost use Rattle.std.specs.Prelude.{◌≡◌};
ghost use Rattle.evtchn_fifo.specs.Numbers.{narrow};
ghost use Rattle.cables.specs.Table.{end, is_end};

use evtchn_fifo::numbers;

// The domains that can have cables.
pub const DOMAINS: u64 = 40;

// A port's part of the number: room for twenty bits.
pub const PORTS: u32 = 0x10_0000;

// The end at a port of a domain; 0, which is none, where the number has no room for one of the two. It stays a number and is no Option:
// `end` of cables/specs/Table.antt, of which `cable_calls` speaks, gives this 0, and the tables of C hold it.
#[tactic(auto, unfolding(cables::specs::Table::end))]
pub fn end_of(domain: u64, port: u32) -> u32
    ensures { result ≡ end domain port }
{
    if domain < DOMAINS && port < PORTS {
        domain as u32 * PORTS + port
    } else {
        0
    }
}

// Whether a number is an end, whatever a lent table holds.
#[tactic(auto, unfolding(cables::specs::Table::is_end, cables::specs::Table::domain_of, cables::specs::Table::port_of))]
pub fn is_end(number: u32) -> bool
    ensures { result ≡ is_end number }
{
    u64::from(number / PORTS) < DOMAINS && number % PORTS != 0
}

// A port of a domain, with that domain's record and ledger, which tell whether it is bound, as C's `evtchn_cables_end`.
#[derive(Clone, Copy)]
pub struct End<'a> {
    pub domain: &'a [u8],
    pub ledger: &'a [u8],
    pub number: u64,
    pub port: u32,
}

impl<'a> End<'a> {
    // A port beyond 32 bits counts as the greatest number, which is no port.
    pub(crate) fn new(domain: &'a [u8], ledger: &'a [u8], number: u64, port: u64) -> End<'a>
        ensures domain { result.domain.now ≡ domain.now }
        ensures ledger { result.ledger.now ≡ ledger.now }
        ensures number { result.number ≡ number }
        ensures port { result.port ≡ narrow port }
    {
        End {
            domain,
            ledger,
            number,
            port: numbers::narrowed(port),
        }
    }
}
