// The records of both sides, and the memory that they run on.
use calls::types::{Guest, GuestStage, Next, Owner, Stage};
use calls::{clear_mask, hypervisor, records};
use machine::types::{Advance, Side, Sides, Step};
use word::entry::fresh_entry;
use word::{Port, Queue};

#[derive(Drop)]
pub(crate) struct World<'a> {
    sides: Sides,
    ledger: &'a mut [u16],
    words: &'a mut [u32],
    block: [u32; 18],
}

impl<'a> World<'a> {
    // Fresh records, on a ledger and words that are lent.
    pub(crate) fn fresh(ledger: &'a mut [u16], words: &'a mut [u32]) -> World<'a> {
        World {
            sides: Sides {
                domain: records::fresh_domain(),
                guest: records::fresh_guest(),
            },
            ledger,
            words,
            block: [0; 18],
        }
    }

    pub(crate) fn advance(&mut self, step: Step) -> Advance {
        let advance = machine::step::advance(
            self.sides,
            self.ledger,
            self.words,
            &mut self.block,
            step,
        );
        self.sides = advance.sides;
        advance
    }

    // The hypervisor's access with a ledger of one entry.
    pub(crate) fn advance_short(&mut self) -> Advance {
        let advance = machine::step::advance(
            self.sides,
            &mut [fresh_entry()],
            self.words,
            &mut self.block,
            Step::Perform(Side::Hypervisor),
        );
        self.sides = advance.sides;
        advance
    }

    // A raise at R5 is put under way.
    pub(crate) fn put_raise(&mut self, port: Port, queue: Queue, count: u32) {
        let call = records::call_at(Owner::Raise, Stage::R5, port, queue, count);
        self.sides.domain = records::with_call(self.sides.domain, call);
    }

    // A service at G3 is put under way.
    pub(crate) fn put_service(&mut self, port: Port, queue: Queue, count: u32) {
        self.sides.guest = Guest {
            call: records::guest_call_at(GuestStage::G3, port, queue, count),
            ..self.sides.guest
        };
    }

    // What a side waits for.
    pub(crate) fn due(&self, side: Side) -> Next {
        match side {
            Side::Hypervisor => hypervisor::due(self.sides.domain),
            Side::Guest => clear_mask::guest_due(self.sides.guest),
        }
    }

    // Whether a side waits for an access.
    pub(crate) fn is_busy(&self, side: Side) -> bool {
        matches!(self.due(side), Next::Access(_))
    }
}
