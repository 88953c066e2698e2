// A piece of the log, line by line: a line that stands whole in it is played from there, any other from the host's buffer.
ghost use Rattle.std.specs.Prelude.{◌≡◌, length, position, eqb, false, Ok, IfOk};
ghost use Rattle.word.specs.Word.{link_bits};
ghost use Rattle.access_log.specs.Line.{newline};
ghost use Rattle.replay.specs.Player.{fed};
ghost use Rattle.replay.specs.State.{feed_of, line_length, ends_line};
ghost use Rattle.replay.specs.Lent.{KeepsReferences, world_lent};

use crate::player::lent::Lent;
use crate::player::progress::{Playing, Stopped};
use access_log::text::put_bytes;

// The place of the first newline.
fn newline_in(text: &[u8]) -> Option<usize>
    ensures { result ≡ position (λ b. eqb b newline) text.now }
{
    text.iter().position(|byte| *byte == b'\n')
}

// The length of the first line of a text, its newline included; of the whole text where it has none.
#[tactic(auto, using(crate::proofs::FeedLaws::length_found, crate::proofs::FeedLaws::found_inside, crate::proofs::FeedLaws::length_whole))]
fn line_length(text: &[u8]) -> usize
    ensures { result ≡ line_length text.now }
{
    match newline_in(text) {
        Some(at) => at + 1,
        None => text.len(),
    }
}

#[tactic(auto, using(crate::proofs::FeedLaws::last_ended, crate::proofs::FeedLaws::none_ended))]
fn is_ended(text: &[u8]) -> bool
    ensures { result ≡ ends_line text.now }
{
    let len = text.len();
    len > 0 && text[len - 1] == b'\n'
}

impl Lent<'_> {
    // A line, or a part of one that the piece's end cuts off, which leaves what is due as it was lent. A line at which the replay stops is
    // kept.
    #[tactic(auto, using(crate::proofs::FeedLaws::part_kept))]
    fn feed_line(
        &mut self,
        at: Playing,
        line: &mut [u8; 64],
        text: &[u8],
    ) -> Result<Playing, Stopped>
        requires { line_length text.now ≡ length text.now }
        ensures same_references { KeepsReferences self.old self.new }
        ensures as_lent { ends_line text.now ≡ false → IfOk result (λ p. (p.due ≡ at.due) × (p.mask ≡ at.mask)) }
        ensures fed { feed_of result line.new self.new.due.now (world_lent self.new) ≡ fed link_bits (feed_of (Ok at) line.old self.old.due.now (world_lent self.old)) text.now }
    {
        if !is_ended(text) {
            let len = put_bytes(line, at.line, text);
            return Ok(Playing { line: len, ..at });
        }
        let due = at.due_line();
        if at.line == 0 && text.len() <= 64 {
            match self.play_line(due, text) {
                Ok(due) => return Ok(at.next(due)),
                Err(stop) => return Err(at.stopped(put_bytes(line, 0, text), stop)),
            }
        }
        let len = put_bytes(line, at.line, text);
        match self.play_line(due, &line[..len.min(64)]) {
            Ok(due) => Ok(at.next(due)),
            Err(stop) => Err(at.stopped(len, stop)),
        }
    }

    // A piece of the log.
    pub(crate) fn feed(
        &mut self,
        position: Playing,
        line: &mut [u8; 64],
        text: &[u8],
    ) -> Result<Playing, Stopped>
        ensures same_references { KeepsReferences self.old self.new }
        ensures fed { feed_of result line.new self.new.due.now (world_lent self.new) ≡ fed link_bits (feed_of (Ok position) line.old self.old.due.now (world_lent self.old)) text.now }
    {
        let mut at = position;
        let mut rest = text;
        // No `for` over `split_inclusive`: the goal `feed_line-requires` does not close, as an invariant can't say what its closure finds.
        while !rest.is_empty() {
            let (part, after) = rest.split_at(line_length(rest));
            at = self.feed_line(at, line, part)?;
            rest = after;
        }
        Ok(at)
    }
}
