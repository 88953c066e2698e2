// What an end is refused with: 23, 64, then 10, 3, 14, 4.
ghost use Rattle.std.specs.Prelude.{◌≡◌};
ghost use Rattle.word.specs.Word.{link_bits};
ghost use Rattle.evtchn_cables.specs.Encoded.{refusal_number, result_code, port_refusal_bytes, near_refusal_bytes};

use crate::ends::{DOMAINS, End};
use crate::table;
use calls::records;
use evtchn_fifo::{domain_record, layout, ledger};
use word::Port;

// The refusals of lay, cut and send, by the C header's numbers.
#[derive(Clone, Copy, PartialEq, Eq, Debug)]
pub enum Refusal {
    BadPort = 3,
    NotBound = 4,
    NotGiven = 10,
    NoEntry = 14,
    BadDomain = 23,
    SameDomain = 24,
    Taken = 25,
    NoCable = 26,
    Full = 34,
    TooShort = 64,
}

impl From<Refusal> for u32 {
    ghost from_gives = { λ refusal number. number ≡ refusal_number refusal };

    fn from(refusal: Refusal) -> u32 {
        refusal as u32
    }
}

impl End<'_> {
    // A port's own: 10, 3, 14, 4. Neither a call under way nor the array matters. Each is tested in its turn: what follows then knows the
    // port to be one, and tests less.
    #[tactic(auto, unfolding(crate::specs::Encoded::port_refusal_bytes, cables::specs::Rules::refusal_by, calls::specs::Hypervisor::accept_port, calls::specs::Records::is_free, calls::specs::Answers::code_of))]
    pub fn check_port(self) -> Result<(), Refusal>
        ensures { result_code result ≡ port_refusal_bytes link_bits self.entry.domain.now self.entry.ledger.now self.entry.port }
    {
        if !domain_record::given_in(self.domain) {
            return Err(Refusal::NotGiven);
        }
        if !records::is_port(Port(self.port)) {
            return Err(Refusal::BadPort);
        }
        match ledger::entry_in(self.ledger, Port(self.port)) {
            Some(entry) if word::entry::is_bound(entry) => Ok(()),
            Some(_) => Err(Refusal::NotBound),
            None => Err(Refusal::NoEntry),
        }
    }

    // The near end's of a cut and of a send, all but 26.
    #[tactic(auto, unfolding(crate::specs::Encoded::near_refusal_bytes, crate::specs::Encoded::lent_refusal))]
    pub fn check(self, table: &[u8]) -> Result<(), Refusal>
        ensures { result_code result ≡ near_refusal_bytes link_bits table.now self.entry.domain.now self.entry.ledger.now self.entry.number self.entry.port }
    {
        if DOMAINS <= self.number {
            return Err(Refusal::BadDomain);
        }
        if table.len() < table::TABLE_SIZE || self.domain.len() < layout::DOMAIN_SIZE {
            return Err(Refusal::TooShort);
        }
        self.check_port()
    }
}
