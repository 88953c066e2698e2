// A line of an access: the access that the side's call waits for is made, and the line must be its own.
ghost use Rattle.std.specs.Prelude.{◌≡◌, ◌∷◌, ℕ};
ghost use Rattle.word.specs.Word.{link_bits};
ghost use Rattle.machine.specs.Exec.{World};
ghost use Rattle.access_log.specs.Line.{bytes_of};
ghost use Rattle.access_log.specs.Event.{access_line};
ghost use Rattle.evtchn_fifo.specs.Encoded.{unpacked};
ghost use Rattle.replay.specs.Player.{met, made};
ghost use Rattle.replay.specs.State.{named_in, result_due, after_line};
ghost use Rattle.replay.specs.Lent.{KeepsReferences, world_lent, waits_for, Replied};

use crate::player::due::{Due, Stop, miss, put_answer};
use crate::player::lent::Lent;
use crate::player::named::Named;
use access_log::event::access_line;
use access_log::line::put_line;
use access_log::text::starts_as;
use calls::types::Access;
use evtchn_fifo::clear_mask::{evtchn_fifo_bytes_service_due, evtchn_fifo_bytes_service_reply};
use evtchn_fifo::encoded::PackedNext;
use evtchn_fifo::hypervisor::{evtchn_fifo_bytes_due, evtchn_fifo_bytes_reply};
use machine::memory::perform;
use machine::types::Side;

// The line must be that of the access made; then the answer is due that its reply gave, if it gave one.
#[tactic(auto, using(crate::proofs::DueLaws::line_put, crate::proofs::DueLaws::access_meets, crate::proofs::DueLaws::access_misses))]
fn meet_access(
    buffer: &mut [u8; 64],
    side: Side,
    access: Access,
    seen: u32,
    next: PackedNext,
    text: &[u8],
) -> Result<Option<Due>, Stop>
    ensures { (k : ℕ) (w : World) → after_line result k buffer.new w ≡ met w (bytes_of (access_line side access seen) ∷ result_due side (unpacked next)) k text.now }
{
    let len = put_line(buffer, access_line(side, access, seen));
    if starts_as(buffer, len, text) {
        return Ok(put_answer(buffer, side, next));
    }
    Err(miss(len, text))
}

impl Lent<'_> {
    fn waits_for(&self, side: Side) -> Named
        ensures { result ≡ named_in (waits_for side self.now) }
    {
        match side {
            Side::Hypervisor => Named::from(evtchn_fifo_bytes_due(self.domain)),
            Side::Guest => Named::from(evtchn_fifo_bytes_service_due(self.guest)),
        }
    }

    fn reply(&mut self, side: Side, seen: u32) -> PackedNext
        ensures same_references { KeepsReferences self.old self.new }
        ensures replied { Replied side self.old seen (unpacked result) self.new }
    {
        match side {
            Side::Hypervisor => {
                let domain = &mut *self.domain;
                let ledger = &mut *self.ledger;
                evtchn_fifo_bytes_reply(domain, ledger, seen)
            }
            Side::Guest => evtchn_fifo_bytes_service_reply(self.guest, seen),
        }
    }

    #[tactic(auto, using(crate::proofs::AccessLaws::access_idle, crate::proofs::AccessLaws::access_made))]
    pub(crate) fn access(&mut self, side: Side, text: &[u8]) -> Result<Option<Due>, Stop>
        ensures same_references { KeepsReferences self.old self.new }
        ensures made { (k : ℕ) → after_line result k self.new.due.now (world_lent self.new) ≡ made link_bits (world_lent self.old) k side text.now }
    {
        match self.waits_for(side) {
            Named::Answer(_) => Err(miss(0, text)),
            Named::Access(access) => {
                let words = &mut *self.words;
                let block = &mut *self.block;
                let seen = perform(words, block, access);
                let next = self.reply(side, seen);
                meet_access(self.due, side, access, seen, next, text)
            }
        }
    }
}
