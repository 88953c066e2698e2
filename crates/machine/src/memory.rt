// Lent memory: event words as one slice, the control block as another (READY, a reserved word, HEAD[0] to HEAD[15]).
// A place outside what is lent reads 0 and is not written.
ghost use Rattle.std.specs.Prelude.{◌≡◌, get_or, set};
ghost use Rattle.machine.specs.Memory.{place_of, after_access, memory, loaded, saved, performed, did, zero_page};

use calls::records::put_at;
use calls::types::{Access, Place};
use word::effect::{after_and, after_cas, after_or, after_read, after_store, after_swap};

// The word at an index; 0 past the end.
pub fn word_at(words: &[u32], at: usize) -> u32
    ensures { result ≡ get_or words.now at 0 }
{
    words.get(at).copied().unwrap_or(0)
}

// Another word at an index; no change past the end.
pub fn put_word(words: &mut [u32], at: usize, value: u32)
    ensures { words.new ≡ set words.old at value }
{
    put_at(words, at, value);
}

#[tactic(auto, unfolding(crate::specs::Memory::place_of))]
pub fn place_of(access: Access) -> Place
    ensures { result ≡ place_of access }
{
    match access {
        Access::Read(place)
        | Access::Store(place, _)
        | Access::Or(place, _)
        | Access::And(place, _)
        | Access::Swap(place, _)
        | Access::Cas(place, _, _) => place,
    }
}

// What an access leaves of the word.
#[tactic(auto, unfolding(crate::specs::Memory::after_access))]
pub fn after_access(access: Access, word: u32) -> u32
    ensures { result ≡ after_access access word }
{
    match access {
        Access::Read(_) => after_read(word),
        Access::Store(_, value) => after_store(word, value),
        Access::Or(_, operand) => after_or(word, operand),
        Access::And(_, operand) => after_and(word, operand),
        Access::Swap(_, value) => after_swap(word, value),
        Access::Cas(_, old, new) => after_cas(word, old, new),
    }
}

// The word at a place.
#[tactic(auto, unfolding(crate::specs::Memory::loaded))]
pub fn loaded(words: &[u32], block: &[u32], place: Place) -> u32
    ensures { result ≡ loaded (memory words.now block.now) place }
{
    match place {
        Place::Word(port) => word_at(words, port.0 as usize),
        Place::Ready => word_at(block, 0),
        Place::Head(queue) => word_at(block, queue.0 as usize + 2),
    }
}

// Another word at a place.
#[tactic(auto, unfolding(crate::specs::Memory::saved))]
pub fn saved(words: &mut [u32], block: &mut [u32], place: Place, value: u32)
    ensures { memory words.new block.new ≡ saved (memory words.old block.old) place value }
{
    match place {
        Place::Word(port) => put_word(words, port.0 as usize, value),
        Place::Ready => put_word(block, 0, value),
        Place::Head(queue) => put_word(block, queue.0 as usize + 2, value),
    }
}

// One access is made; the word seen comes back.
#[tactic(auto, unfolding(crate::specs::Memory::performed))]
pub fn perform(words: &mut [u32], block: &mut [u32], access: Access) -> u32
    ensures { did (memory words.new block.new) result ≡ performed (memory words.old block.old) access }
{
    let place = place_of(access);
    let seen = loaded(words, block, place);
    let after = after_access(access, seen);
    saved(words, block, place, after);
    seen
}

// A page of the array, set to 0 as far as it is lent.
pub fn zero_page(words: &mut [u32], page: u32)
    ensures { words.new ≡ zero_page page words.old }
{
    let first = page as usize * 1024;
    for i in 0..1024 {
        put_word(words, first + i, 0);
    }
}
