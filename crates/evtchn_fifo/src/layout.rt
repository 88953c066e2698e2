// Where each field of a record stands, in bytes. Every field is a number of four bytes, the lowest first; tails and heads are
// sixteen.
ghost use Rattle.std.specs.Prelude.{◌≡◌};
ghost use Rattle.evtchn_fifo.specs.DomainRecord.{layout_number};

pub const DOMAIN_SIZE: usize = 100;

pub const GIVEN: usize = 0;

pub const PAGES: usize = 4;

pub const TAILS: usize = 8;

pub const OWNER: usize = 72;

pub const STAGE: usize = 76;

pub const PORT: usize = 80;

pub const QUEUE: usize = 84;

pub const WORD: usize = 88;

pub const TRIES: usize = 92;

pub const COUNT: usize = 96;

pub const GUEST_SIZE: usize = 104;

pub const HEADS: usize = 0;

pub const READY: usize = 64;

pub const WORDS: usize = 68;

pub const GUEST_STAGE: usize = 72;

pub const GUEST_PORT: usize = 76;

pub const GUEST_QUEUE: usize = 80;

pub const GUEST_COUNT: usize = 84;

pub const CLEAR_STAGE: usize = 88;

pub const CLEAR_PORT: usize = 92;

pub const CLEAR_WORD: usize = 96;

pub const CLEAR_COUNT: usize = 100;

// The bytes of a record that is long enough, without those beyond it, and of a ledger's entry that is there: functions on these need no
// clause on a length.
pub(crate) type DomainBytes = [u8; DOMAIN_SIZE];

pub(crate) type GuestBytes = [u8; GUEST_SIZE];

pub(crate) type EntryBytes = [u8; 2];

// The number of this layout. It changes with any place, size or code.
pub fn evtchn_fifo_layout() -> u32
    ensures { result ≡ layout_number }
{
    2
}
