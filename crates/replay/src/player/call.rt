// A call line: its call runs, and what it brings is due.
ghost use Rattle.std.specs.Prelude.{◌≡◌, ℕ};
ghost use Rattle.word.specs.Word.{link_bits};
ghost use Rattle.access_log.specs.Line.{LegalCall};
ghost use Rattle.access_log.specs.Read.{call_in};
ghost use Rattle.replay.specs.Replay.{begins};
ghost use Rattle.replay.specs.Player.{opened};
ghost use Rattle.replay.specs.State.{after_line};
ghost use Rattle.evtchn_fifo.specs.Encoded.{unpacked, carried};
ghost use Rattle.exported.specs.Run.{start_bytes};
ghost use Rattle.replay.specs.Lent.{KeepsReferences, Started, world_lent};

use crate::player::due::{Due, Stop, put_answer, put_due};
use crate::player::lent::Lent;
use crate::player::named::{Named, is_done};
use access_log::event::access_line;
use access_log::line::{Line, LoggedCall, put_line};
use access_log::read::call_in;
use access_log::text::starts_as;
use evtchn_fifo::clear_mask::evtchn_fifo_bytes_clear_mask;
use evtchn_fifo::domain_record::pages_in;
use evtchn_fifo::encoded::PackedNext;
use evtchn_fifo::guest::{evtchn_fifo_bytes_service, evtchn_fifo_bytes_tell, evtchn_fifo_mask};
use evtchn_fifo::guest_record::words_in;
use evtchn_fifo::hypervisor::{
    evtchn_fifo_bytes_bind, evtchn_fifo_bytes_close, evtchn_fifo_bytes_expand_array,
    evtchn_fifo_bytes_init_control, evtchn_fifo_bytes_raise, evtchn_fifo_bytes_set_priority,
    evtchn_fifo_bytes_unmask,
};
use machine::memory::{perform, zero_page};
use machine::types::{Side, Start};
use word::Port;

// The start of a call of the hypervisor, but for the page that an expand adds.
#[tactic(auto, unfolding(exported::specs::Run::start_bytes))]
fn begun(domain: &mut [u8], ledger: &mut [u8], start: Start) -> PackedNext
    ensures { carried (unpacked result) domain.new ledger.new ≡ start_bytes link_bits domain.old ledger.old start }
{
    match start {
        Start::InitControl(vcpu, frame, frames, offset) => {
            evtchn_fifo_bytes_init_control(domain, vcpu as u64, frame, frames, offset as u64)
        }
        Start::ExpandArray(frame, frames) => evtchn_fifo_bytes_expand_array(domain, frame, frames),
        Start::Bind(port) => evtchn_fifo_bytes_bind(domain, ledger, port.0 as u64),
        Start::Close(port) => evtchn_fifo_bytes_close(domain, ledger, port.0 as u64),
        Start::SetPriority(port, priority) => {
            evtchn_fifo_bytes_set_priority(domain, ledger, port.0 as u64, priority.0 as u64)
        }
        Start::Raise(port) => evtchn_fifo_bytes_raise(domain, ledger, port.0 as u64),
        Start::Unmask(port) => evtchn_fifo_bytes_unmask(domain, ledger, port.0 as u64),
    }
}

impl Lent<'_> {
    // A page more, if the expand answers 0: it must be lent. The words of the page are set to 0, and her number of words follows.
    #[tactic(auto, using(crate::proofs::CallLaws::legal_expand, crate::proofs::CallLaws::expand_refused))]
    fn expand(&mut self, frame: u32) -> Result<Option<Due>, Stop>
        ensures same_references { KeepsReferences self.old self.new }
        ensures begun { (k : ℕ) → after_line result k self.new.due.now (world_lent self.new) ≡ begins link_bits (world_lent self.old) k (LoggedCall.ExpandArray frame) }
    {
        let domain = &mut *self.domain;
        let pages = pages_in(domain);
        let next = evtchn_fifo_bytes_expand_array(domain, frame as u64, 1024);
        if !is_done(next) {
            return Ok(put_answer(self.due, Side::Hypervisor, next));
        }
        if self.words.len() < 1024 * (pages as usize + 1) {
            return Err(Stop::NotLent);
        }
        zero_page(self.words, pages);
        let more = pages_in(domain);
        evtchn_fifo_bytes_tell(self.guest, 1024 * more as u64);
        Ok(put_answer(self.due, Side::Hypervisor, next))
    }

    // A mask's access is made at once; its line is due, and its answer after it.
    #[tactic(auto, using(crate::proofs::CallLaws::legal_mask, crate::proofs::DueLaws::named_answer, crate::proofs::DueLaws::named_access, crate::proofs::CallLaws::mask_refused, crate::proofs::CallLaws::mask_made))]
    fn mask(&mut self, port: Port) -> Result<Option<Due>, Stop>
        ensures same_references { KeepsReferences self.old self.new }
        ensures begun { (k : ℕ) → after_line result k self.new.due.now (world_lent self.new) ≡ begins link_bits (world_lent self.old) k (LoggedCall.Mask port) }
    {
        let guest = &mut *self.guest;
        let count = words_in(guest);
        let next = evtchn_fifo_mask(port.0 as u64, count as u64);
        match Named::from(next) {
            Named::Answer(_) => Ok(put_answer(self.due, Side::Guest, next)),
            Named::Access(access) => {
                let words = &mut *self.words;
                let block = &mut *self.block;
                let seen = perform(words, block, access);
                Ok(put_due(self.due, access_line(Side::Guest, access, seen), true))
            }
        }
    }

    fn start(&mut self, start: Start) -> Option<Due>
        ensures same_references { KeepsReferences self.old self.new }
        ensures started { Started self.old start result self.new }
    {
        let domain = &mut *self.domain;
        let ledger = &mut *self.ledger;
        let next = begun(domain, ledger, start);
        put_answer(self.due, Side::Hypervisor, next)
    }

    // The call runs. It keeps a frame of its own, so that the stack of an access's line does not hold its parts as well.
    #[inline(never)]
    fn begin(&mut self, call: LoggedCall) -> Result<Option<Due>, Stop>
        requires { LegalCall call }
        ensures same_references { KeepsReferences self.old self.new }
        ensures begun { (k : ℕ) → after_line result k self.new.due.now (world_lent self.new) ≡ begins link_bits (world_lent self.old) k call }
    {
        match call {
            LoggedCall::InitControl(vcpu, frame, offset) => {
                Ok(self.start(Start::InitControl(vcpu, frame as u64, 1024, offset)))
            }
            LoggedCall::ExpandArray(frame) => self.expand(frame),
            LoggedCall::Bind(port) => Ok(self.start(Start::Bind(port))),
            LoggedCall::Close(port) => Ok(self.start(Start::Close(port))),
            LoggedCall::SetPriority(port, priority) => {
                Ok(self.start(Start::SetPriority(port, priority)))
            }
            LoggedCall::Raise(port) => Ok(self.start(Start::Raise(port))),
            LoggedCall::Unmask(port) => Ok(self.start(Start::Unmask(port))),
            LoggedCall::Service => {
                let next = evtchn_fifo_bytes_service(self.guest);
                Ok(put_answer(self.due, Side::Guest, next))
            }
            LoggedCall::Mask(port) => self.mask(port),
            LoggedCall::ClearMask(port) => {
                let next = evtchn_fifo_bytes_clear_mask(self.guest, port.0 as u64);
                Ok(put_answer(self.due, Side::Guest, next))
            }
        }
    }

    // A line that would be a call's: the call runs, if the line is of the form.
    #[tactic(auto, using(crate::proofs::OpenLaws::not_called, crate::proofs::OpenLaws::called_legal, crate::proofs::DueLaws::line_put))]
    pub(crate) fn call(&mut self, text: &[u8]) -> Result<Option<Due>, Stop>
        ensures same_references { KeepsReferences self.old self.new }
        ensures opened { (k : ℕ) → after_line result k self.new.due.now (world_lent self.new) ≡ opened link_bits (world_lent self.old) k text.now (Line.Call (call_in text.now)) }
    {
        let call = call_in(text);
        let due = &mut *self.due;
        let len = put_line(due, Line::Call(call));
        if starts_as(due, len, text) {
            return self.begin(call);
        }
        Err(Stop::NotOfTheForm(0))
    }
}
