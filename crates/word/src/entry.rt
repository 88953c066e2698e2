// Ledger entries, of 16 bits: priority, last queue, bound, has been linked.
ghost use Rattle.std.specs.Prelude.{◌≡◌};
ghost use Rattle.word.specs.Word.{queue_at};
ghost use Rattle.word.specs.Entry.{fresh_entry, priority, last_queue, bound, ever_linked, priority_at, queue_of, with_priority, bound_entry, closed_entry, linked_entry};

use crate::{Priority, Queue};

pub fn fresh_entry() -> u16
    ensures { result ≡ fresh_entry }
{
    7
}

#[tactic(auto, unfolding(crate::specs::Entry::priority, crate::specs::Bits::field))]
pub fn priority_of(entry: u16) -> Priority
    ensures { result ≡ priority_at (priority entry) }
{
    Priority((entry % 16) as u32)
}

// Queue number equals priority. No `From`: this is the one way from a priority to a queue, under its name.
pub fn queue_of(priority: Priority) -> Queue
    ensures { result ≡ queue_of priority }
{
    Queue(priority.0)
}

#[tactic(auto, unfolding(crate::specs::Entry::last_queue, crate::specs::Bits::field))]
pub fn last_queue(entry: u16) -> Queue
    ensures { result ≡ queue_at (last_queue entry) }
{
    Queue((entry / 16 % 16) as u32)
}

#[tactic(auto, unfolding(crate::specs::Entry::bound, crate::specs::Bits::bit, crate::specs::Bits::field))]
pub fn is_bound(entry: u16) -> bool
    ensures { result ≡ bound entry }
{
    entry / 256 % 2 == 1
}

#[tactic(auto, unfolding(crate::specs::Entry::ever_linked, crate::specs::Bits::bit, crate::specs::Bits::field))]
pub fn has_been_linked(entry: u16) -> bool
    ensures { result ≡ ever_linked entry }
{
    entry / 512 % 2 == 1
}

#[tactic(auto, unfolding(crate::specs::Entry::with_priority, crate::specs::Bits::with_field))]
pub fn with_priority(entry: u16, priority: Priority) -> u16
    ensures { result ≡ with_priority entry priority.0 }
{
    entry / 16 * 16 + (priority.0 % 16) as u16
}

// The entry of a port that becomes bound.
#[tactic(auto, unfolding(crate::specs::Entry::bound_entry, crate::specs::Bits::with_field))]
pub fn bound_entry(entry: u16) -> u16
    ensures { result ≡ bound_entry entry }
{
    entry / 512 * 512 + 256 + entry % 256
}

// The entry of a port that is closed: not bound, priority 7.
#[tactic(auto, unfolding(crate::specs::Entry::closed_entry, crate::specs::Bits::with_field))]
pub fn closed_entry(entry: u16) -> u16
    ensures { result ≡ closed_entry entry }
{
    entry / 512 * 512 + entry / 16 % 16 * 16 + 7
}

// The entry of a port that is linked on a queue (R2): the last queue, and has been linked.
#[tactic(auto, using(crate::proofs::EntryLaws::linked_digits))]
pub fn linked_entry(entry: u16, queue: Queue) -> u16
    ensures { result ≡ linked_entry entry queue.0 }
{
    let moved = entry / 256 * 256 + (queue.0 % 16) as u16 * 16 + entry % 16;
    moved / 1024 * 1024 + 512 + moved % 512
}
