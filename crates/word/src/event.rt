// Event words: flags, LINK, and the operands that change them.
ghost use Rattle.std.specs.Prelude.{◌≡◌};
ghost use Rattle.word.specs.Word.{mask, all_but, has, link, with_link, unlink_operand, link_bits, port_at};

use crate::{Flag, Port};

// The number of link bits, and how many numbers fit in them.
pub const LINK_BITS: u32 = 17;

pub const LINKS: u32 = 1 << LINK_BITS;

// The number of link bits, as init_control answers it.
pub fn link_bits() -> u32
    ensures { result ≡ link_bits }
{
    LINK_BITS
}

// The operand of an or that sets a flag.
#[tactic(auto, unfolding(crate::specs::Word::mask))]
pub fn mask(flag: Flag) -> u32
    ensures { result ≡ mask flag }
{
    match flag {
        Flag::Pending => 0x8000_0000,
        Flag::Masked => 0x4000_0000,
        Flag::Linked => 0x2000_0000,
        Flag::Busy => 0x1000_0000,
    }
}

// The operand of an and that clears a flag.
#[tactic(auto, unfolding(crate::specs::Word::all_but))]
pub fn all_but(flag: Flag) -> u32
    ensures { result ≡ all_but flag }
{
    match flag {
        Flag::Pending => 0x7FFF_FFFF,
        Flag::Masked => 0xBFFF_FFFF,
        Flag::Linked => 0xDFFF_FFFF,
        Flag::Busy => 0xEFFF_FFFF,
    }
}

// The operand of the and that clears LINKED and LINK at once (G2).
#[tactic(auto, unfolding(crate::specs::Word::unlink_operand))]
pub fn unlink_operand() -> u32
    ensures { result ≡ unlink_operand link_bits }
{
    0xE000_0000 - LINKS
}

#[tactic(auto, using(crate::proofs::WordLaws::flag_test))]
pub fn has(word: u32, flag: Flag) -> bool
    ensures { result ≡ has flag word }
{
    word & mask(flag) != 0
}

// The port that LINK names; 0 ends a chain.
#[tactic(auto, unfolding(crate::specs::Word::link, crate::specs::Bits::field))]
pub fn link(word: u32) -> Port
    ensures { result ≡ port_at (link link_bits word) }
{
    Port(word % LINKS)
}

// The word with another LINK and every other bit as found.
#[tactic(auto, unfolding(crate::specs::Word::with_link, crate::specs::Bits::with_field))]
pub fn with_link(word: u32, port: Port) -> u32
    ensures { result ≡ with_link link_bits word port.0 }
{
    word / LINKS * LINKS + port.0 % LINKS
}
