// lay, cut and send, as C reaches them.
ghost use Rattle.std.specs.Prelude.{◌≡◌};
ghost use Rattle.word.specs.Word.{link_bits};
ghost use Rattle.cables.specs.Table.{end, other};
ghost use Rattle.cables.specs.Rules.{join_refusal};
ghost use Rattle.evtchn_cables.specs.TableBytes.{slot_in, table_at};
ghost use Rattle.evtchn_cables.specs.Encoded.{result_code, lay_code, lay_did, laid, lay_bytes, laid_bytes, near_code, cut_did, cut_call_bytes, was_cut, send_bytes, far_bytes, far_found, sent};

use crate::ends::{DOMAINS, End, PORTS};
use crate::refusals::Refusal;
use crate::table::Slot;
use crate::{ends, table};
use evtchn_fifo::layout;

// What a lay comes to: 0 with the slot of the new cable, or a refusal. A code beside a value and no Result, since it is the C header's
// `evtchn_cables_laid`.
#[repr(C)]
#[derive(Clone, Copy, PartialEq, Eq, Debug)]
pub struct Laid {
    pub code: u32,
    pub slot: u32,
}

// What a send comes to: 0 with the far end, whose domain is to raise the port, and the cable's slot; or a refusal. It is the C header's
// `evtchn_cables_far`.
#[repr(C)]
#[derive(Clone, Copy, PartialEq, Eq, Debug)]
pub struct Far {
    pub code: u32,
    pub domain: u32,
    pub port: u32,
    pub slot: u32,
}

// A cable between two ports of two domains. Refusals: 23, 24, 64, then 10, 3, 14, 4 of each end in turn, 25, 34.
pub fn evtchn_cables_bytes_lay(
    table: &mut [u8],
    near: &[u8],
    near_ledger: &[u8],
    far: &[u8],
    far_ledger: &[u8],
    near_domain: u64,
    near_port: u64,
    far_domain: u64,
    far_port: u64,
) -> Laid
    ensures { laid_bytes result table.new ≡ lay_bytes link_bits table.old near.now near_ledger.now far.now far_ledger.now near_domain near_port far_domain far_port }
{
    let near = End::new(near, near_ledger, near_domain, near_port);
    let far = End::new(far, far_ledger, far_domain, far_port);
    match lay(table, near, far) {
        Ok(slot) => Laid { code: 0, slot },
        Err(refusal) => Laid {
            code: u32::from(refusal),
            slot: 0,
        },
    }
}

#[tactic(auto, using(crate::proofs::RefusalLaws::number_some, crate::proofs::RefusalLaws::lay_code_is))]
fn lay(table: &mut [u8], near: End, far: End) -> Result<u32, Refusal>
    ensures { laid_bytes (laid result) table.new ≡ lay_did (lay_code link_bits table.old near.entry.domain.now near.entry.ledger.now far.entry.domain.now far.entry.ledger.now near.entry.number near.entry.port far.entry.number far.entry.port) table.old (end near.entry.number near.entry.port) (end far.entry.number far.entry.port) }
{
    if DOMAINS <= near.number || DOMAINS <= far.number {
        return Err(Refusal::BadDomain);
    }
    if near.number == far.number {
        return Err(Refusal::SameDomain);
    }
    if far.domain.len() < layout::DOMAIN_SIZE {
        return Err(Refusal::TooShort);
    }
    near.check(table)?;
    far.check_port()?;
    join(
        table,
        ends::end_of(near.number, near.port),
        ends::end_of(far.number, far.port),
    )
}

// 25, 34, and the cable in the lowest free slot. It is no call of its own: with its Result in memory that takes 120 bytes of stack, and
// EVTCHN_CABLES_STACK is 88.
#[inline(always)]
#[tactic(auto, using(crate::proofs::SlotLaws::found_some), unfolding(cables::specs::Rules::join_refusal))]
fn join(table: &mut [u8], one: u32, two: u32) -> Result<u32, Refusal>
    ensures { laid_bytes (laid result) table.new ≡ lay_did (join_refusal (table_at table.old) one two) table.old one two }
{
    if table::lowest_with(table, one).is_some() || table::lowest_with(table, two).is_some() {
        return Err(Refusal::Taken);
    }
    let slot = table::lowest_free(table).ok_or(Refusal::Full)?;
    table::put_slot(table, slot, Slot { one, two });
    Ok(slot)
}

// The cable of an end is cut, from either end. Refusals: 23, 64, then 10, 3, 14, 4, then 26.
pub fn evtchn_cables_bytes_cut(
    table: &mut [u8],
    domain: &[u8],
    ledger: &[u8],
    number: u64,
    port: u64,
) -> u32
    ensures { was_cut result table.new ≡ cut_call_bytes link_bits table.old domain.now ledger.now number port }
{
    let near = End::new(domain, ledger, number, port);
    match cut(table, near) {
        Ok(()) => 0,
        Err(refusal) => u32::from(refusal),
    }
}

#[tactic(auto, using(crate::proofs::RefusalLaws::number_some, crate::proofs::RefusalLaws::near_code_is, crate::proofs::SlotLaws::found_some))]
fn cut(table: &mut [u8], near: End) -> Result<(), Refusal>
    ensures { was_cut (result_code result) table.new ≡ cut_did (near_code link_bits table.old near.entry.domain.now near.entry.ledger.now near.entry.number near.entry.port) table.old (end near.entry.number near.entry.port) }
{
    near.check(table)?;
    let end = ends::end_of(near.number, near.port);
    table::lowest_with(table, end).ok_or(Refusal::NoCable)?;
    table::cut_end(table, end);
    Ok(())
}

// The far end of a cable, whose domain is to raise the port: of the hinted slot if it has the near end, else of the lowest that has it.
// Refusals as a cut's. The hint is no Option: C passes any number, and one from 1,024 on is no slot.
#[tactic(auto, unfolding(cables::specs::Table::domain_of, cables::specs::Table::port_of))]
pub fn evtchn_cables_bytes_send(
    table: &[u8],
    domain: &[u8],
    ledger: &[u8],
    number: u64,
    port: u64,
    hint: u32,
) -> Far
    ensures { result ≡ send_bytes link_bits table.now domain.now ledger.now number port hint }
{
    let near = End::new(domain, ledger, number, port);
    match send(table, near, hint) {
        Ok(far) => far,
        Err(refusal) => Far {
            code: u32::from(refusal),
            domain: 0,
            port: 0,
            slot: 0,
        },
    }
}

// Each of the two slots goes its own way to the answer, so that a right hint reads its slot once.
#[tactic(auto, using(crate::proofs::RefusalLaws::number_some, crate::proofs::RefusalLaws::near_code_is, crate::proofs::SlotLaws::found_some, crate::proofs::SlotLaws::send_is))]
fn send(table: &[u8], near: End, hint: u32) -> Result<Far, Refusal>
    ensures { sent result ≡ far_found (near_code link_bits table.now near.entry.domain.now near.entry.ledger.now near.entry.number near.entry.port) table.now hint (end near.entry.number near.entry.port) }
{
    near.check(table)?;
    let end = ends::end_of(near.number, near.port);
    if table::hinted(table, hint, end) {
        return Ok(far_at(table, hint, end));
    }
    let slot = table::lowest_with(table, end).ok_or(Refusal::NoCable)?;
    Ok(far_at(table, slot, end))
}

// The far end, of a slot that has the near one.
#[tactic(auto, unfolding(cables::specs::Table::domain_of, cables::specs::Table::port_of))]
fn far_at(table: &[u8], slot: u32, end: u32) -> Far
    ensures { result ≡ far_bytes 0 (other (slot_in table.now slot) end) slot }
{
    let far = table::slot_in(table, slot).other(end);
    Far {
        code: 0,
        domain: far / PORTS,
        port: far % PORTS,
        slot,
    }
}
