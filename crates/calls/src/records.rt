// Fresh records, the extent of the array, and the rules on counts, tails and heads that every stage shares.
ghost use Rattle.std.specs.Prelude.{◌≡◌, length, get_or, set, replicate};
ghost use Rattle.word.specs.Word.{link_bits};
ghost use Rattle.word.specs.Entry.{fresh_entry};
ghost use Rattle.calls.specs.Records.{one_more, page_limit, is_port, in_array, entry_at, is_free, call_at, idle_call, guest_call_at, guest_idle, is_clearing, clear_at, clear_idle, fresh_domain, fresh_guest, with_call};

use crate::types::{
    Call, ClearCall, ClearStage, Domain, Guest, GuestCall, GuestStage, Owner, Stage,
};
use word::entry::fresh_entry;
use word::event::LINKS;
use word::{Port, Queue};

// A count that stays where it can't move further.
#[tactic(auto, unfolding(crate::specs::Records::one_more))]
pub fn one_more(count: u32) -> u32
    ensures { result ≡ one_more count }
{
    count.saturating_add(1)
}

// Whether a number is a port: not 0, and below 131,072 (refusal 3 where it is none).
#[tactic(auto, unfolding(crate::specs::Records::is_port))]
pub fn is_port(port: Port) -> bool
    ensures { result ≡ is_port link_bits port.0 }
{
    port.0 != 0 && port.0 < LINKS
}

// The most pages that an array can have.
pub fn page_limit() -> u32
    ensures { result ≡ page_limit link_bits }
{
    LINKS / 1024
}

// Whether a port lies in an array of so many pages.
#[tactic(auto, unfolding(crate::specs::Records::in_array))]
pub fn in_array(pages: u32, port: Port) -> bool
    ensures { result ≡ in_array pages port.0 }
{
    port.0 / 1024 < pages
}

// A ledger's entry for a port, where it has one.
#[tactic(auto, unfolding(crate::specs::Records::entry_at))]
pub fn entry_at(ledger: &[u16], port: Port) -> Option<u16>
    ensures { result ≡ entry_at ledger.now port.0 }
{
    ledger.get(port.0 as usize).copied()
}

// Another value at an index; an index past the end changes nothing.
pub fn put_at<T: Copy>(items: &mut [T], at: usize, value: T)
    ensures { items.new ≡ set items.old at value }
{
    if at < items.len() {
        items[at] = value;
    }
}

// The ledger with another entry for a port; a port that it has no entry for changes nothing.
pub fn put_entry(ledger: &mut [u16], port: Port, entry: u16)
    ensures { ledger.new ≡ set ledger.old port.0 entry }
{
    put_at(ledger, port.0 as usize, entry);
}

// A queue's tail or head; 0 for a number that is none of the sixteen queues.
pub fn at_queue(values: [u32; 16], queue: Queue) -> u32
    ensures { result ≡ get_or values queue.0 0 }
{
    values.get(queue.0 as usize).copied().unwrap_or(0)
}

// The tails or heads with one of them changed; none changes for a number that is none of the sixteen queues.
pub fn with_queue(values: [u32; 16], queue: Queue, value: u32) -> [u32; 16]
    ensures { result ≡ set values queue.0 value }
{
    let mut changed = values;
    put_at(&mut changed, queue.0 as usize, value);
    changed
}

// Whether no call is under way.
#[tactic(auto, unfolding(crate::specs::Records::is_free))]
pub fn is_free(owner: Owner) -> bool
    ensures { result ≡ is_free owner }
{
    matches!(owner, Owner::None)
}

pub fn call_at(owner: Owner, stage: Stage, port: Port, queue: Queue, count: u32) -> Call
    ensures { result ≡ call_at owner stage port queue count }
{
    Call {
        owner,
        stage,
        port,
        queue,
        word: 0,
        tries: 0,
        count,
    }
}

// No call under way.
pub fn idle_call() -> Call
    ensures { result ≡ idle_call }
{
    call_at(Owner::None, Stage::First, Port(0), Queue(0), 0)
}

pub fn with_call(domain: Domain, call: Call) -> Domain
    ensures { result ≡ with_call domain call }
{
    Domain { call, ..domain }
}

pub fn fresh_domain() -> Domain
    ensures { result ≡ fresh_domain }
{
    Domain {
        given: false,
        pages: 0,
        tails: [0; 16],
        call: idle_call(),
    }
}

// A fresh ledger, whatever it held.
pub fn fresh_ledger(ledger: &mut [u16])
    ensures { ledger.new ≡ replicate (length ledger.old) fresh_entry }
{
    ledger.fill(fresh_entry());
}

pub fn guest_call_at(stage: GuestStage, port: Port, queue: Queue, count: u32) -> GuestCall
    ensures { result ≡ guest_call_at stage port queue count }
{
    GuestCall {
        stage,
        port,
        queue,
        count,
    }
}

// No service under way.
pub fn guest_idle() -> GuestCall
    ensures { result ≡ guest_idle }
{
    guest_call_at(GuestStage::None, Port(0), Queue(0), 0)
}

// Whether a clear_mask is under way.
#[tactic(auto, unfolding(crate::specs::Records::is_clearing))]
pub fn is_clearing(stage: ClearStage) -> bool
    ensures { result ≡ is_clearing stage }
{
    !matches!(stage, ClearStage::None)
}

pub fn clear_at(stage: ClearStage, port: Port, word: u32, count: u32) -> ClearCall
    ensures { result ≡ clear_at stage port word count }
{
    ClearCall {
        stage,
        port,
        word,
        count,
    }
}

// No clear_mask under way.
pub fn clear_idle() -> ClearCall
    ensures { result ≡ clear_idle }
{
    clear_at(ClearStage::None, Port(0), 0, 0)
}

pub fn fresh_guest() -> Guest
    ensures { result ≡ fresh_guest }
{
    Guest {
        heads: [0; 16],
        ready: 0,
        words: 0,
        call: guest_idle(),
        clear: clear_idle(),
    }
}
