// One line of the log.
ghost use Rattle.std.specs.Prelude.{◌≡◌, ℕ};
ghost use Rattle.word.specs.Word.{link_bits};
ghost use Rattle.access_log.specs.Read.{guess};
ghost use Rattle.replay.specs.Replay.{playing};
ghost use Rattle.replay.specs.Player.{opened, quick};
ghost use Rattle.replay.specs.State.{due_lines, after_line};
ghost use Rattle.replay.specs.Lent.{KeepsReferences, world_lent};

use crate::player::due::{Due, Stop, meet, miss};
use crate::player::lent::Lent;
use access_log::read::{Kind, kind_of};

impl Lent<'_> {
    // A line where nothing is due.
    #[tactic(auto, using(crate::proofs::OpenLaws::open_header, crate::proofs::OpenLaws::open_access, crate::proofs::OpenLaws::open_answer, crate::proofs::OpenLaws::open_call))]
    fn open(&mut self, text: &[u8]) -> Result<Option<Due>, Stop>
        ensures same_references { KeepsReferences self.old self.new }
        ensures opened { (k : ℕ) → after_line result k self.new.due.now (world_lent self.new) ≡ opened link_bits (world_lent self.old) k text.now (guess text.now) }
    {
        match kind_of(text) {
            Kind::Header | Kind::Answer => Err(miss(0, text)),
            Kind::Access(side) => self.access(side, text),
            Kind::Call => self.call(text),
        }
    }

    // The next line of the log, where the replay has not stopped.
    #[tactic(auto, using(crate::proofs::OpenLaws::quick_open, crate::proofs::OpenLaws::quick_meet))]
    pub(crate) fn play_line(&mut self, due: Option<Due>, text: &[u8]) -> Result<Option<Due>, Stop>
        ensures same_references { KeepsReferences self.old self.new }
        ensures played { (k : ℕ) → after_line result k self.new.due.now (world_lent self.new) ≡ quick link_bits (playing (world_lent self.old) (due_lines due self.old.due.now) k) text.now }
    {
        match due {
            None => self.open(text),
            Some(due) => meet(self.due, due, text),
        }
    }
}
