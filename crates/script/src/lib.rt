// A script on standard input, or from another reader: words with blanks or line ends between them. No contract can say what is read.
#![tactic(auto)]

ghost use Rattle.std.specs.Prelude.{◌≡◌, ◌↔◌, IsTrue, []};
ghost use Rattle.script.specs.Names.{name_of, same_name, place_of};

use arrayvec::ArrayVec;
use std::io;
use std::io::{BufRead, Write};

// The letters of the longest word.
const LONGEST: usize = 256;

// A script that is read from `input`. Any byte below a blank ends a word or a line, and their lengths are bounded: std's `split` and
// `lines` know one end and no bound.
#[derive(Drop)]
pub struct Script<R> {
    pub input: R,
    // The letters of the word that was read last, kept here so that a word is not copied.
    letters: ArrayVec<u8, LONGEST>,
}

impl<R: BufRead> Script<R> {
    pub fn new(input: R) -> Script<R>
        ensures input { result.input ≡ input }
        ensures no_letters { result.letters.items ≡ [] }
    {
        Script {
            input,
            letters: ArrayVec::new(),
        }
    }

    // The next byte; none where the script ends.
    fn byte(&mut self) -> io::Result<Option<u8>> {
        let byte = self.input.fill_buf()?.first().copied();
        if byte.is_some() {
            self.input.consume(1);
        }
        Ok(byte)
    }

    // The first byte that is no blank; after 65,536 blanks the next one, whatever it is: a script may have no end.
    fn first_byte(&mut self) -> io::Result<Option<u8>> {
        for _ in 0..65536 {
            let byte = self.byte()?;
            if !matches!(byte, Some(b' ' | b'\n')) {
                return Ok(byte);
            }
        }
        self.byte()
    }

    // The next word, with no letters where the script ends. Of one longer than the longest the next letter is passed over, and what
    // follows is a word of its own.
    fn word(&mut self) -> io::Result<&[u8]> {
        self.letters.clear();
        let mut byte = self.first_byte()?;
        for _ in 0..LONGEST {
            let Some(letter) = byte.filter(|byte| *byte > b' ') else {
                break;
            };
            // There is room for as many letters as there are turns.
            if self.letters.try_push(letter).is_err() {
                break;
            }
            byte = self.byte()?;
        }
        Ok(self.letters.as_slice())
    }

    // The letters by which the next word is known, its last eight.
    pub fn name(&mut self) -> io::Result<ArrayVec<u8, 8>> {
        Ok(ArrayVec::try_from(name_of(self.word()?)).unwrap())
    }

    // A decimal number.
    pub fn number(&mut self) -> io::Result<u64> {
        Ok(decimal(self.word()?))
    }

    // A decimal number modulo 2^32.
    pub fn small(&mut self) -> io::Result<u32> {
        Ok((self.number()? % 0x1_0000_0000) as u32)
    }

    // A hexadecimal number modulo 2^32.
    pub fn hex(&mut self) -> io::Result<u32> {
        Ok(hexadecimal(self.word()?))
    }

    // Copies the rest of a line, without its end; of a longer one 65,536 bytes.
    pub fn line(&mut self, out: &mut impl Write) -> io::Result<()> {
        for _ in 0..65536 {
            let Some(byte) = self.byte()?.filter(|byte| *byte >= b' ') else {
                break;
            };
            out.write_all(&[byte])?;
        }
        Ok(())
    }
}

// The value of a digit, in either base; 0 where a byte is none.
fn digit(byte: u8) -> u8 {
    match byte {
        b'0'..=b'9' => byte - b'0',
        b'A'..=b'F' => byte - b'A' + 10,
        _ => 0,
    }
}

// The number that a word's digits make, of its last nineteen.
fn decimal(word: &[u8]) -> u64 {
    word.iter().fold(0, |value, byte| {
        value % 1_000_000_000_000_000_000 * 10 + u64::from(digit(*byte))
    })
}

// The number that a word's digits make, of its last eight.
fn hexadecimal(word: &[u8]) -> u32 {
    word.iter()
        .fold(0, |value, byte| value << 4 | u32::from(digit(*byte)))
}

// The letters by which a word is known: its last eight.
fn name_of(word: &[u8]) -> &[u8]
    ensures { result.now ≡ name_of word.now }
{
    &word[word.len().saturating_sub(8)..]
}

// Whether two words are known by the same letters.
fn same_name(a: &[u8], b: &[u8]) -> bool
    ensures { result ≡ same_name a.now b.now }
{
    name_of(a) == name_of(b)
}

// The place of a word in a list of names with a blank between them: 1 for the first, none for a word that it lacks.
pub fn place(word: &[u8], list: &[u8]) -> Option<usize>
    ensures { result ≡ place_of word.now list.now }
{
    list.split(|byte| *byte == b' ')
        .position(|name| same_name(name, word))
        .map(|at| at + 1)
}

// Whether a word is known by the same letters as a name.
pub fn is(word: &[u8], name: &[u8]) -> bool
    ensures { IsTrue result ↔ (place_of word.now name.now ≡ Some 1) }
{
    place(word, name) == Some(1)
}

#[cfg(test)]
mod tests {
    use super::*;
    use std::test::Fail;

    #[test]
    fn reads_words(rt: HostRuntime) -> Result<(), Fail> {
        let mut script = Script::new(
            b"log C 1\ttitle\n  raise\n clear_mask 12A 99999999999999999999 4294967301 1FFFFFFFE 1x2".as_slice(),
        );
        assert_eq!(rt; script.name()?.as_slice(), b"log".as_slice());
        let mut title = Vec::new(rt.alloc());
        script.line(&mut title)?;
        assert_eq!(rt; title.as_slice(), b"C 1".as_slice());
        assert_eq!(rt; script.name()?.as_slice(), b"title".as_slice());
        assert_eq!(rt; script.name()?.as_slice(), b"raise".as_slice());
        assert_eq!(rt; script.name()?.as_slice(), b"ear_mask".as_slice());
        assert_eq!(rt; script.number()?, 130, "a letter has its hexadecimal value");
        assert_eq!(rt;
            script.number()?,
            9_999_999_999_999_999_999,
            "the last nineteen digits"
        );
        assert_eq!(rt; script.small()?, 5);
        assert_eq!(rt; script.hex()?, 0xFFFF_FFFE);
        assert_eq!(rt; script.number()?, 102, "another byte is a 0");
        assert_eq!(rt;
            script.name()?.as_slice(),
            b"".as_slice(),
            "the script's end"
        );
        assert_eq!(rt; script.number()?, 0, "the script's end");
        Ok(())
    }

    #[test]
    fn finds_names(rt: HostRuntime) {
        assert_eq!(rt; place(b"bind", b"bind close clear_mask"), Some(1));
        assert_eq!(rt; place(b"close", b"bind close clear_mask"), Some(2));
        assert_eq!(rt; place(b"ear_mask", b"bind close clear_mask"), Some(3));
        assert_eq!(rt; place(b"clos", b"bind close clear_mask"), None);
        assert!(rt; is(b"ear_mask", b"clear_mask"));
        assert!(rt; !is(b"mask", b"clear_mask"));
    }
}
