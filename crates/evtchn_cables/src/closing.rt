// close and reply for a domain that may have cables: as without, and where a close's ledger change falls, the port's cable is cut.
ghost use Rattle.std.specs.Prelude.{◌≡◌};
ghost use Rattle.word.specs.Word.{link_bits};
ghost use Rattle.evtchn_fifo.specs.Encoded.{unpacked, carried};
ghost use Rattle.cables.specs.Rules.{fallen_at};
ghost use Rattle.evtchn_cables.specs.Encoded.{fall_bytes, with_table, close_cables, reply_cables};

use crate::{ends, table};
use evtchn_fifo::encoded::PackedNext;
use evtchn_fifo::hypervisor::{evtchn_fifo_bytes_close, evtchn_fifo_bytes_reply};
use evtchn_fifo::{domain_record, encoded, numbers};

// The port's cable is cut where its close answered 0. Port 0 is none and no Option: `fallen` of cables/specs/Rules.antt has it so, of
// which `cable_calls` speaks.
#[tactic(auto, unfolding(evtchn_fifo::specs::Encoded::unpacked, crate::specs::Encoded::fall_bytes))]
fn cut_fallen(table: &mut [u8], number: u64, port: u32, next: PackedNext)
    ensures { table.new ≡ fall_bytes table.old number (fallen_at (unpacked next).code port) }
{
    if next.first % 0x1_0000_0000 == 0 && port != 0 {
        table::cut_end(table, ends::end_of(number, port));
    }
}

#[tactic(auto, unfolding(crate::specs::Encoded::close_cables))]
pub fn evtchn_cables_bytes_close(
    table: &mut [u8],
    domain: &mut [u8],
    ledger: &mut [u8],
    number: u64,
    port: u64,
) -> PackedNext
    ensures { with_table (carried (unpacked result) domain.new ledger.new) table.new ≡ close_cables link_bits table.old domain.old ledger.old number port }
{
    if table.len() < table::TABLE_SIZE {
        return encoded::too_short();
    }
    let next = evtchn_fifo_bytes_close(domain, ledger, port);
    cut_fallen(table, number, numbers::narrowed(port), next);
    next
}

// Only a close's reply looks at the table.
#[tactic(auto, unfolding(crate::specs::Encoded::reply_cables, crate::specs::Encoded::fall_bytes))]
pub fn evtchn_cables_bytes_reply(
    table: &mut [u8],
    domain: &mut [u8],
    ledger: &mut [u8],
    number: u64,
    seen: u32,
) -> PackedNext
    ensures { with_table (carried (unpacked result) domain.new ledger.new) table.new ≡ reply_cables link_bits table.old domain.old ledger.old number seen }
{
    if table.len() < table::TABLE_SIZE {
        return encoded::too_short();
    }
    let closing = domain_record::closing_in(domain);
    let next = evtchn_fifo_bytes_reply(domain, ledger, seen);
    if closing != 0 {
        cut_fallen(table, number, closing, next);
    }
    next
}
