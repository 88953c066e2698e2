// Numbers in bytes, the lowest byte first; the sixteen numbers of a record's queues; 64-bit numbers as 32-bit ones.
#![tactic(auto, unfolding(crate::specs::Numbers::number_at, crate::specs::Numbers::put_number, crate::specs::Numbers::number_in, crate::specs::Numbers::put_number_in, crate::specs::Numbers::narrow, crate::specs::Numbers::value_at, crate::specs::Numbers::put_value))]

ghost use Rattle.std.specs.Prelude.{◌≡◌, ◌+◌, ◌≤◌, length};
ghost use Rattle.evtchn_fifo.specs.Numbers.{number_at, put_number, number_in, put_number_in, narrow, value_at, put_value, put_values};

use word::Queue;

// Four functions for numbers of four and of two bytes: a trait over both would have to show its bytes equal to `number_at` for each, and
// be longer than the four. That the number lies in the bytes is a clause on both arguments, here and below, met by constants wherever a
// record is read.
pub(crate) fn u32_at(bytes: &[u8], at: usize) -> u32
    requires { at + 4 ≤ length bytes.now }
    ensures { result ≡ number_at 3 bytes.now at }
{
    u32::from_le_bytes([bytes[at], bytes[at + 1], bytes[at + 2], bytes[at + 3]])
}

// By index: after copy_from_slice into a range `put_mid at 4 bytes copied ≡ put_number 3 bytes at value` is left to prove.
pub(crate) fn put_u32(bytes: &mut [u8], at: usize, value: u32)
    requires { at + 4 ≤ length bytes.old }
    ensures { bytes.new ≡ put_number 3 bytes.old at value }
{
    let [first, second, third, fourth] = value.to_le_bytes();
    bytes[at] = first;
    bytes[at + 1] = second;
    bytes[at + 2] = third;
    bytes[at + 3] = fourth;
}

// The same two for any place: 0, and nothing written, where the bytes end before four of them.
pub fn u32_in(bytes: &[u8], at: usize) -> u32
    ensures { result ≡ number_in bytes.now at }
{
    if bytes.len() < 4 || bytes.len() - 4 < at {
        return 0;
    }
    u32_at(bytes, at)
}

pub fn put_u32_in(bytes: &mut [u8], at: usize, value: u32)
    ensures { bytes.new ≡ put_number_in bytes.old at value }
{
    if 4 <= bytes.len() && at <= bytes.len() - 4 {
        put_u32(bytes, at, value);
    }
}

pub(crate) fn u16_at(bytes: &[u8], at: usize) -> u16
    requires { at + 2 ≤ length bytes.now }
    ensures { result ≡ number_at 1 bytes.now at }
{
    u16::from_le_bytes([bytes[at], bytes[at + 1]])
}

pub(crate) fn put_u16(bytes: &mut [u8], at: usize, value: u16)
    requires { at + 2 ≤ length bytes.old }
    ensures { bytes.new ≡ put_number 1 bytes.old at value }
{
    let [first, second] = value.to_le_bytes();
    bytes[at] = first;
    bytes[at + 1] = second;
}

// A number of 64 bits as one of 32: itself, or the greatest.
pub fn narrowed(value: u64) -> u32
    ensures { result ≡ narrow value }
{
    u32::try_from(value).unwrap_or(u32::MAX)
}

// A queue's number of the sixteen that begin at base; 0 for a number that is none of the queues.
pub(crate) fn value_at(bytes: &[u8], base: usize, queue: Queue) -> u32
    requires { base + 64 ≤ length bytes.now }
    ensures { result ≡ value_at base bytes.now queue.0 }
{
    if queue.0 < 16 {
        return u32_at(bytes, base + queue.0 as usize * 4);
    }
    0
}

// The same number changed; none changes for a number that is none of the queues.
pub(crate) fn put_value(bytes: &mut [u8], base: usize, queue: Queue, value: u32)
    requires { base + 64 ≤ length bytes.old }
    ensures { bytes.new ≡ put_value base bytes.old queue.0 value }
{
    if queue.0 < 16 {
        put_u32(bytes, base + queue.0 as usize * 4, value);
    }
}

// All sixteen.
#[tactic(auto, using(crate::proofs::WriteLaws::number_more, crate::proofs::WriteLaws::no_number))]
pub(crate) fn put_values(bytes: &mut [u8], base: usize, values: [u32; 16])
    requires { base + 64 ≤ length bytes.old }
    ensures { bytes.new ≡ put_values base bytes.old values }
{
    for queue in 0..16 {
        put_u32(bytes, base + queue * 4, values[queue]);
    }
}
