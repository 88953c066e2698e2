// The ledger in bytes: an entry of two bytes a port. A last odd byte is no entry.
#![tactic(auto, unfolding(crate::specs::Ledger::entry_in, crate::specs::Ledger::put_entry))]

ghost use Rattle.std.specs.Prelude.{◌≡◌, ltb};
ghost use Rattle.evtchn_fifo.specs.Ledger.{entries, entry_in, put_entry, fresh_ledger_bytes};
ghost use Rattle.evtchn_fifo.specs.Encoded.{freshened};

use crate::numbers;
use word::Port;

pub(crate) fn has_entry(ledger: &[u8], port: Port) -> bool
    ensures { result ≡ ltb port.0 (entries ledger.now) }
{
    (port.0 as usize) < ledger.len() / 2
}

pub fn entry_in(ledger: &[u8], port: Port) -> Option<u16>
    ensures { result ≡ entry_in ledger.now port.0 }
{
    if has_entry(ledger, port) {
        return Some(numbers::u16_at(ledger, port.0 as usize * 2));
    }
    None
}

// The ledger with another entry for a port; a port that it has no entry for changes nothing.
pub fn put_entry(ledger: &mut [u8], port: Port, entry: u16)
    ensures { ledger.new ≡ put_entry ledger.old port.0 entry }
{
    if has_entry(ledger, port) {
        numbers::put_u16(ledger, port.0 as usize * 2, entry);
    }
}

// Every entry fresh, whatever the bytes held. The answer is 0. By index, since a proof knows nothing of what chunks_exact_mut writes.
#[tactic(auto, using(crate::proofs::LedgerLaws::fill_more), unfolding(crate::specs::Ledger::fill_entries, crate::specs::Ledger::fresh_ledger_bytes))]
pub fn evtchn_fifo_bytes_fresh_ledger(ledger: &mut [u8]) -> u32
    ensures { freshened result ledger.new ≡ fresh_ledger_bytes ledger.old }
{
    let fresh = word::entry::fresh_entry();
    for port in 0..ledger.len() / 2 {
        numbers::put_u16(ledger, port * 2, fresh);
    }
    0
}
