// What each access leaves of the word it is made on.
ghost use Rattle.std.specs.Prelude.{◌≡◌};
ghost use Rattle.word.specs.Effect.{after_read, after_store, after_or, after_and, after_swap, cas_taken, after_cas};

#[tactic(auto, unfolding(crate::specs::Effect::after_read))]
pub fn after_read(word: u32) -> u32
    ensures { result ≡ after_read word }
{
    word
}

#[tactic(auto, unfolding(crate::specs::Effect::after_store))]
pub fn after_store(word: u32, value: u32) -> u32
    ensures { result ≡ after_store word value }
{
    value
}

#[tactic(auto, unfolding(crate::specs::Effect::after_or))]
pub fn after_or(word: u32, operand: u32) -> u32
    ensures { result ≡ after_or word operand }
{
    word | operand
}

#[tactic(auto, unfolding(crate::specs::Effect::after_and))]
pub fn after_and(word: u32, operand: u32) -> u32
    ensures { result ≡ after_and word operand }
{
    word & operand
}

// The same as `after_store`: `after_swap` of specs/ names it, as its access has a name of its own.
#[tactic(auto, unfolding(crate::specs::Effect::after_swap))]
pub fn after_swap(word: u32, value: u32) -> u32
    ensures { result ≡ after_swap word value }
{
    value
}

// Whether a cas is taken: exactly when the word seen is the old operand.
#[tactic(auto, unfolding(crate::specs::Effect::cas_taken))]
pub fn cas_taken(seen: u32, old: u32) -> bool
    ensures { result ≡ cas_taken seen old }
{
    seen == old
}

#[tactic(auto, unfolding(crate::specs::Effect::after_cas))]
pub fn after_cas(word: u32, old: u32, new: u32) -> u32
    ensures { result ≡ after_cas word old new }
{
    if cas_taken(word, old) { new } else { word }
}
