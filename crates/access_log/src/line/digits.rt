// Numbers as digits: decimals without leading zeros, words as eight hex digits.
ghost use Rattle.std.specs.Prelude.{◌≡◌, ◌<◌, ◌≤◌};
ghost use Rattle.access_log.specs.Line.{digit, digits, places, decimal, hex8};
ghost use Rattle.access_log.specs.Text.{Appends};

use crate::text::Writer;

// The powers of ten that a word holds, the highest first.
const TENS: [u32; 10] = [
    1_000_000_000,
    100_000_000,
    10_000_000,
    1_000_000,
    100_000,
    10_000,
    1_000,
    100,
    10,
    1,
];

#[tactic(auto, unfolding(crate::specs::Line::digit))]
fn digit(value: u32) -> u8
    requires { value < 16 }
    ensures { result ≡ digit value }
{
    if value < 10 {
        b'0' + value as u8
    } else {
        b'A' + (value as u8 - 10)
    }
}

// How many digits the decimal n has, or most where that is less.
#[tactic(auto, using(crate::proofs::DigitLaws::places_one, crate::proofs::DigitLaws::places_more, crate::proofs::DigitLaws::places_le), unfolding(crate::specs::Line::places))]
fn places(most: u32, n: u32) -> u32
    ensures { result ≡ places most n }
{
    if most == 0 {
        return 0;
    }
    if n < 10 {
        return 1;
    }
    places(most - 1, n / 10) + 1
}

// A word's eight digits, written out: by a recursion over them a line of the replay costs 145 instructions more.
#[tactic(auto, using(crate::proofs::DigitLaws::hex_digits))]
fn hex_digits(word: u32) -> [u8; 8]
    ensures { result ≡ hex8 word }
{
    let digit_at = |shift: u32| digit((word >> shift) % 16);
    [
        digit_at(28),
        digit_at(24),
        digit_at(20),
        digit_at(16),
        digit_at(12),
        digit_at(8),
        digit_at(4),
        digit_at(0),
    ]
}

impl Writer<'_> {
    #[tactic(auto, using(crate::proofs::DigitLaws::places_le))]
    pub(crate) fn decimal(&mut self, n: u32)
        ensures { Appends self.old self.new (decimal n) }
    {
        for ten in &TENS[10 - places(10, n) as usize..] {
            self.byte(digit(n / ten % 10));
        }
    }

    pub(crate) fn hex(&mut self, word: u32)
        ensures { Appends self.old self.new (hex8 word) }
    {
        self.bytes(&hex_digits(word));
    }
}
