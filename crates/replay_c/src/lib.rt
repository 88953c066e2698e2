// The functions of `replay` as C links them: each calls the one of its name there, and promises the same. They stand in a
// crate of their own, since a crate is a library or a static library.
#![tactic(auto)]

ghost use Rattle.std.specs.Prelude.{◌≡◌, List, [], ℕ, length};
ghost use Rattle.word.specs.Word.{link_bits};
ghost use Rattle.machine.specs.Exec.{World};
ghost use Rattle.evtchn_fifo.specs.Ledger.{entries};
ghost use Rattle.replay.specs.Replay.{starts};
ghost use Rattle.replay.specs.Player.{feed, fed, reports};
ghost use Rattle.replay.specs.State.{world_in, feed_at};

use replay::player::{Position, Report};

#[unsafe(no_mangle)]
pub extern "C" fn evtchn_replay_bytes_start(
    domain: &mut [u8; 100],
    ledger: &mut [u8],
    guest: &mut [u8; 104],
    words: &mut [u32],
    block: &mut [u32; 18],
    due: &mut [u8; 64],
) -> Position
    ensures { (line : List ℕ) → feed_at result line due.new (world_in domain.new ledger.new guest.new words.new block.new) ≡ feed (starts (entries ledger.old) (length words.old)) [] }
{
    replay::player::evtchn_replay_bytes_start(domain, ledger, guest, words, block, due)
}

#[unsafe(no_mangle)]
pub extern "C" fn evtchn_replay_bytes_feed(
    position: Position,
    domain: &mut [u8; 100],
    ledger: &mut [u8],
    guest: &mut [u8; 104],
    words: &mut [u32],
    block: &mut [u32; 18],
    line: &mut [u8; 64],
    due: &mut [u8; 64],
    text: &[u8],
) -> Position
    ensures { feed_at result line.new due.new (world_in domain.new ledger.new guest.new words.new block.new) ≡ fed link_bits (feed_at position line.old due.old (world_in domain.old ledger.old guest.old words.old block.old)) text.now }
{
    replay::player::evtchn_replay_bytes_feed(
        position, domain, ledger, guest, words, block, line, due, text,
    )
}

#[unsafe(no_mangle)]
pub extern "C" fn evtchn_replay_bytes_report(position: Position) -> Report
    ensures { (line due : List ℕ) (w : World) → length line ≡ 64 → result ≡ reports (feed_at position line due w) }
{
    replay::player::evtchn_replay_bytes_report(position)
}
