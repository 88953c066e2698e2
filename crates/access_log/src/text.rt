// Texts built in place, by appending to a buffer: what no longer fits is left out. And whether two texts are the same.
ghost use Rattle.std.specs.Prelude.{◌≡◌, [], ◌∷◌, take};
ghost use Rattle.access_log.specs.Text.{text, with_byte, with_bytes, Appends, same};

// A text at the start of a lent buffer, which grows by appending.
#[derive(Drop)]
pub(crate) struct Writer<'a> {
    pub(crate) out: &'a mut [u8],
    pub(crate) len: usize,
}

impl<'a> Writer<'a> {
    pub(crate) fn new(out: &'a mut [u8], len: usize) -> Writer<'a>
        ensures same_buffer { result.out.ghost_name ≡ out.entry.ghost_name }
        ensures written { text result.out.now result.len ≡ text out.old len }
    {
        Writer { out, len }
    }

    #[tactic(auto, unfolding(crate::specs::Text::text, crate::specs::Text::with_byte, crate::specs::Text::with_bytes))]
    pub(crate) fn byte(&mut self, byte: u8)
        ensures { Appends self.old self.new (byte ∷ []) }
    {
        if self.len < self.out.len() {
            self.out[self.len] = byte;
            self.len += 1;
        }
    }

    // Byte by byte: copy_from_slice calls memmove, and the archive may call memset and memcpy alone.
    pub(crate) fn bytes(&mut self, more: &[u8])
        ensures { Appends self.old self.new more.now }
    {
        for more_byte in more {
            self.byte(*more_byte);
        }
    }
}

// The functions below keep a buffer with a place beside it: C's position of a replay has them so, and `feed_at` speaks of both apart.

// A byte at a place of a buffer; the place after it.
#[tactic(auto, unfolding(crate::specs::Text::with_bytes))]
pub fn put_byte(out: &mut [u8], at: usize, byte: u8) -> usize
    ensures { text out.new result ≡ with_byte (text out.old at) byte }
{
    let mut writer = Writer::new(out, at);
    writer.byte(byte);
    writer.len
}

pub fn put_bytes(out: &mut [u8], at: usize, more: &[u8]) -> usize
    ensures { text out.new result ≡ with_bytes (text out.old at) more.now }
{
    let mut writer = Writer::new(out, at);
    writer.bytes(more);
    writer.len
}

// Whether two texts are the same: `==`, by the definition that the reader's statements use.
#[tactic(auto, using(crate::proofs::ScanLaws::same_bytes))]
pub fn same(s: &[u8], t: &[u8]) -> bool
    ensures { result ≡ same s.now t.now }
{
    s == t
}

// Whether the first len bytes of a buffer are these.
#[tactic(auto, using(std::proofs::lemmas::List::take_min))]
pub fn starts_as(bytes: &[u8], len: usize, s: &[u8]) -> bool
    ensures { result ≡ same (take len bytes.now) s.now }
{
    same(&bytes[..len.min(bytes.len())], s)
}
