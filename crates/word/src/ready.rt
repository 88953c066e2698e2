// Ready bits: one a queue, in the control block's READY and in the guest's local bits.
ghost use Rattle.std.specs.Prelude.{◌≡◌};
ghost use Rattle.word.specs.Ready.{ready_mask, is_ready, merged, cleared, lowest};
ghost use Rattle.word.specs.Word.{queue_at};

use crate::Queue;

// The READY bit of a queue, which R6 sets.
#[tactic(auto, using(crate::proofs::ReadyLaws::mask_shift))]
pub fn ready_mask(queue: Queue) -> u32
    ensures { result ≡ ready_mask queue.0 }
{
    1u32 << (queue.0 % 16)
}

#[tactic(auto, unfolding(crate::specs::Ready::is_ready, crate::specs::Bits::bit, crate::specs::Bits::field))]
pub fn is_ready(word: u32, queue: Queue) -> bool
    ensures { result ≡ is_ready queue.0 word }
{
    (word >> (queue.0 % 16)) % 2 == 1
}

// The local bits after G0: the sixteen low bits of both.
#[tactic(auto, unfolding(crate::specs::Ready::merged))]
pub fn merged(local: u32, seen: u32) -> u32
    ensures { result ≡ merged local seen }
{
    (local | seen) % 0x1_0000
}

// The local bits without a queue's.
#[tactic(auto, unfolding(crate::specs::Ready::cleared))]
pub fn cleared(local: u32, queue: Queue) -> u32
    ensures { result ≡ cleared local queue.0 }
{
    local & !ready_mask(queue)
}

// The lowest ready queue, or 16 where none of the sixteen bits is set: no `Option`, since 16 is what `lowest` of specs/ counts, and every
// record takes it for none.
pub fn lowest(local: u32) -> Queue
    ensures { result ≡ queue_at (lowest local) }
{
    let bits = local % 0x1_0000;
    if bits == 0 {
        return Queue(16);
    }
    Queue(bits.trailing_zeros())
}
