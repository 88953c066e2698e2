// The table of cables: 1,024 slots of eight bytes, the two ends of a cable. Any bytes are a table; what lies beyond them reads 0.
ghost use Rattle.std.specs.Prelude.{◌≡◌};
ghost use Rattle.cables.specs.Table.{slot, holds, has, other, slot_of, lowest_with, lowest_free};
ghost use Rattle.evtchn_cables.specs.TableBytes.{slot_in, put_slot, table_at, found_at, cut_slot_bytes, cut_bytes};

use crate::ends;
use evtchn_fifo::numbers;

pub const TABLE_SIZE: usize = 8192;

pub const SLOTS: u32 = 1024;

// A slot's two numbers: a cable exactly if both are ends. No Option of two ends: C lends any bytes, and `slot_in` of specs/ keeps what stands there.
#[derive(Clone, Copy, PartialEq, Eq, Debug)]
pub struct Slot {
    pub one: u32,
    pub two: u32,
}

impl Slot {
    #[tactic(auto, unfolding(cables::specs::Table::holds))]
    pub fn holds(self) -> bool
        ensures { result ≡ holds (slot self.one self.two) }
    {
        ends::is_end(self.one) && ends::is_end(self.two)
    }

    #[tactic(auto, unfolding(cables::specs::Table::has))]
    pub fn has(self, end: u32) -> bool
        ensures { result ≡ has (slot self.one self.two) end }
    {
        // A branch for each number: where the caller's end is known to be one, the compiler then tests the other number alone, and a send
        // with its hint takes 6 instructions less.
        if self.one == end {
            self.holds()
        } else {
            self.two == end && self.holds()
        }
    }

    // The other end of a slot that has this one.
    #[tactic(auto, unfolding(cables::specs::Table::other))]
    pub fn other(self, end: u32) -> u32
        ensures { result ≡ other (slot self.one self.two) end }
    {
        if self.one == end { self.two } else { self.one }
    }
}

#[tactic(auto, unfolding(crate::specs::TableBytes::slot_in))]
pub fn slot_in(table: &[u8], index: u32) -> Slot
    ensures { slot result.one result.two ≡ slot_in table.now index }
{
    let at = index as usize * 8;
    Slot {
        one: numbers::u32_in(table, at),
        two: numbers::u32_in(table, at + 4),
    }
}

#[tactic(auto, unfolding(crate::specs::TableBytes::put_slot))]
pub fn put_slot(table: &mut [u8], slot: u32, ends: Slot)
    ensures { table.new ≡ put_slot table.old slot ends.one ends.two }
{
    let at = slot as usize * 8;
    numbers::put_u32_in(table, at, ends.one);
    numbers::put_u32_in(table, at + 4, ends.two);
}

// The lowest slot that has an end.
pub fn lowest_with(table: &[u8], end: u32) -> Option<u32>
    ensures { result ≡ found_at (lowest_with (table_at table.now) end) }
{
    (0..SLOTS).find(|slot| slot_in(table, *slot).has(end))
}

// The lowest slot without a cable.
pub fn lowest_free(table: &[u8]) -> Option<u32>
    ensures { result ≡ found_at (lowest_free (table_at table.now)) }
{
    (0..SLOTS).find(|slot| !slot_in(table, *slot).holds())
}

// Whether the hinted slot has the end.
#[tactic(auto, using(crate::proofs::SlotLaws::slot_at, crate::proofs::SlotLaws::slot_beyond, cables::proofs::Tables::has_empty))]
pub fn hinted(table: &[u8], hint: u32, end: u32) -> bool
    ensures { result ≡ has (slot_of (table_at table.now) hint) end }
{
    hint < SLOTS && slot_in(table, hint).has(end)
}

#[tactic(auto, unfolding(crate::specs::TableBytes::cut_slot_bytes))]
pub fn cut_slot(table: &mut [u8], slot: u32, end: u32)
    ensures { table.new ≡ cut_slot_bytes table.old slot end }
{
    if slot_in(table, slot).has(end) {
        put_slot(table, slot, Slot { one: 0, two: 0 });
    }
}

// Every slot that has the end becomes free.
#[tactic(auto, using(crate::proofs::SlotLaws::cut_none, crate::proofs::SlotLaws::cut_more))]
pub fn cut_end(table: &mut [u8], end: u32)
    ensures { table.new ≡ cut_bytes table.old end }
{
    for slot in 0..SLOTS {
        cut_slot(table, slot, end);
    }
}
