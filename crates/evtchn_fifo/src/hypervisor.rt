// The hypervisor's seven calls and its reply, as C reaches them. Each takes the first bytes of a record as one of its own length.
// The starts repeat `calls::hypervisor::start` on bytes, so that a refusal reads only the words that it tests.
#![tactic(auto, unfolding(crate::specs::Hypervisor::next_at, crate::specs::Hypervisor::fresh_domain_bytes, crate::specs::Hypervisor::init_bytes, crate::specs::Hypervisor::expand_bytes, calls::specs::Hypervisor::accept_port, crate::specs::DomainRecord::call_at, crate::specs::Hypervisor::start_bytes, calls::specs::Hypervisor::begin_bind, calls::specs::Hypervisor::due, calls::specs::Records::is_free, crate::specs::Hypervisor::on_port, calls::specs::Hypervisor::begin_close, calls::specs::Hypervisor::begin_priority, calls::specs::Hypervisor::begin_link, crate::specs::Ledger::entry_in, crate::specs::Hypervisor::reply_bytes))]

ghost use Rattle.std.specs.Prelude.{◌≡◌, false};
ghost use Rattle.word.specs.Word.{link_bits, queue_at};
ghost use Rattle.word.specs.Entry.{priority_at};
ghost use Rattle.calls.specs.Records.{is_free, in_array};
ghost use Rattle.calls.specs.Records.{call_at as called_at};
ghost use Rattle.calls.specs.Hypervisor.{accept_init, accept_expand, accept_port, begin_link, due_first};
ghost use Rattle.calls.specs.declared.types.Stage.TheVariants.{First};
ghost use Rattle.calls.specs.declared.types.Answer.TheVariants.{Done};
ghost use Rattle.evtchn_fifo.specs.Ledger.{entry_in, put_entry};
ghost use Rattle.evtchn_fifo.specs.Numbers.{narrow};
ghost use Rattle.evtchn_fifo.specs.DomainRecord.{owner_at, given_at, pages_at, put_call};
ghost use Rattle.evtchn_fifo.specs.Encoded.{unpacked, wrote, carried, freshened, encoded_answer, encoded_access};
ghost use Rattle.evtchn_fifo.specs.Hypervisor.{PortCall, starts_of, next_at, init_bytes, init_bytes_of, expand_bytes, expand_bytes_of, bind_bytes, close_bytes, set_priority_bytes, raise_bytes, unmask_bytes, reply_bytes, due_bytes, fresh_domain_bytes};
ghost use Rattle.evtchn_fifo.specs.Hypervisor.PortCall.{Bind, Close, SetPriority};
ghost use Rattle.evtchn_fifo.specs.InPlace.{started, replied, next_or_answer};

use crate::encoded::PackedNext;
use crate::layout::DomainBytes;
use crate::{domain_record, encoded, layout, ledger, numbers, replies};
use calls::hypervisor::{stage, start};
use calls::records;
use calls::types::{Answer, Call, Owner, Stage};
use word::{Port, Priority, Queue};

// The access that a record's call waits for, or the answer with its count where there is none.
fn next_at(domain: &DomainBytes, call: Call, answer: Answer, count: u32) -> PackedNext
    ensures { unpacked result ≡ next_at link_bits domain.now call answer count }
{
    if records::is_free(call.owner) {
        return encoded::encoded_answer(answer, count);
    }
    let tail = numbers::value_at(domain, layout::TAILS, call.queue);
    encoded::encoded_access(stage::due(call, tail))
}

// 0, or 64 where the record is too short: C's number, and no Result.
pub fn evtchn_fifo_bytes_fresh_domain(domain: &mut [u8]) -> u32
    ensures { freshened result domain.new ≡ fresh_domain_bytes domain.old }
{
    let Some(record) = domain.first_chunk_mut() else {
        return 64;
    };
    domain_record::put_domain(record, records::fresh_domain());
    0
}

fn init_control(
    domain: &mut DomainBytes,
    vcpu: u32,
    frame: u64,
    frames: u64,
    offset: u32,
) -> Result<PackedNext, Answer>
    ensures { wrote (next_or_answer result) domain.new ≡ init_bytes_of link_bits domain.old (accept_init (owner_at domain.old) (given_at domain.old) vcpu frame frames offset) }
{
    let owner = domain_record::owner_at(domain);
    let given = domain_record::given_at(domain);
    start::accept_init(owner, given, vcpu, frame, frames, offset)?;
    numbers::put_u32(domain, layout::GIVEN, 1);
    let bits = word::event::link_bits();
    Ok(encoded::encoded_answer(Answer::LinkBits(bits), 0))
}

pub fn evtchn_fifo_bytes_init_control(
    domain: &mut [u8],
    vcpu: u64,
    frame: u64,
    frames: u64,
    offset: u64,
) -> PackedNext
    ensures { wrote (unpacked result) domain.new ≡ init_bytes link_bits domain.old vcpu frame frames offset }
{
    let Some(record) = domain.first_chunk_mut() else {
        return encoded::too_short();
    };
    let vcpu = numbers::narrowed(vcpu);
    let offset = numbers::narrowed(offset);
    encoded::next_or_answer(init_control(record, vcpu, frame, frames, offset))
}

fn expand_array(domain: &mut DomainBytes, frame: u64, frames: u64) -> Result<PackedNext, Answer>
    ensures { wrote (next_or_answer result) domain.new ≡ expand_bytes_of domain.old (accept_expand link_bits (owner_at domain.old) (given_at domain.old) (pages_at domain.old) frame frames) }
{
    let owner = domain_record::owner_at(domain);
    let given = domain_record::given_at(domain);
    let pages = numbers::u32_at(domain, layout::PAGES);
    start::accept_expand(owner, given, pages, frame, frames)?;
    numbers::put_u32(domain, layout::PAGES, records::one_more(pages));
    Ok(encoded::encoded_answer(Answer::Done, 0))
}

pub fn evtchn_fifo_bytes_expand_array(domain: &mut [u8], frame: u64, frames: u64) -> PackedNext
    ensures { wrote (unpacked result) domain.new ≡ expand_bytes link_bits domain.old frame frames }
{
    let Some(record) = domain.first_chunk_mut() else {
        return encoded::too_short();
    };
    encoded::next_or_answer(expand_array(record, frame, frames))
}

// The entry of a port that gets past 15, 10, 3 and 14, each tested in its turn.
fn accepted(domain: &DomainBytes, ledger: &[u8], port: Port) -> Result<u16, Answer>
    ensures { result ≡ accept_port link_bits (owner_at domain.now) (given_at domain.now) port (entry_in ledger.now port.0) }
{
    if domain_record::is_under_way(domain) {
        return Err(Answer::CallUnderWay);
    }
    if !domain_record::given_at(domain) {
        return Err(Answer::NotGiven);
    }
    if !records::is_port(port) {
        return Err(Answer::BadPort);
    }
    ledger::entry_in(ledger, port).ok_or(Answer::NoEntry)
}

// The call is under way, and its first access named.
fn begun(domain: &mut DomainBytes, owner: Owner, port: Port) -> PackedNext
    ensures { wrote (unpacked result) domain.new ≡ wrote (encoded_access (due_first owner port)) (put_call domain.old (called_at owner First port (queue_at 0) 1)) }
{
    let call = records::call_at(owner, Stage::First, port, Queue(0), 1);
    domain_record::put_call(domain, call);
    encoded::encoded_access(stage::due_first(owner, port))
}

// The entry changes at once.
fn settled(ledger: &mut [u8], port: Port, entry: u16) -> PackedNext
    ensures { wrote (unpacked result) ledger.new ≡ wrote (encoded_answer Done 0) (put_entry ledger.old port.0 entry) }
{
    ledger::put_entry(ledger, port, entry);
    encoded::encoded_answer(Answer::Done, 0)
}

fn inside(domain: &DomainBytes, port: Port) -> bool
    ensures { result ≡ in_array (pages_at domain.now) port.0 }
{
    records::in_array(numbers::u32_at(domain, layout::PAGES), port)
}

fn bind(domain: &mut DomainBytes, ledger: &mut [u8], port: Port) -> Result<PackedNext, Answer>
    ensures { carried (next_or_answer result) domain.new ledger.new ≡ started link_bits (starts_of link_bits Bind) domain.old ledger.old port }
{
    let entry = accepted(domain, ledger, port)?;
    if word::entry::is_bound(entry) {
        return Err(Answer::AlreadyBound);
    }
    if inside(domain, port) {
        return Ok(begun(domain, Owner::Bind, port));
    }
    Ok(settled(ledger, port, word::entry::bound_entry(entry)))
}

pub fn evtchn_fifo_bytes_bind(domain: &mut [u8], ledger: &mut [u8], port: u64) -> PackedNext
    ensures { carried (unpacked result) domain.new ledger.new ≡ bind_bytes link_bits domain.old ledger.old port }
{
    let Some(record) = domain.first_chunk_mut() else {
        return encoded::too_short();
    };
    encoded::next_or_answer(bind(record, ledger, Port(numbers::narrowed(port))))
}

fn close(domain: &mut DomainBytes, ledger: &mut [u8], port: Port) -> Result<PackedNext, Answer>
    ensures { carried (next_or_answer result) domain.new ledger.new ≡ started link_bits (starts_of link_bits Close) domain.old ledger.old port }
{
    let entry = accepted(domain, ledger, port)?;
    if !word::entry::is_bound(entry) {
        return Err(Answer::NotBound);
    }
    if inside(domain, port) {
        return Ok(begun(domain, Owner::Close, port));
    }
    Ok(settled(ledger, port, word::entry::closed_entry(entry)))
}

pub fn evtchn_fifo_bytes_close(domain: &mut [u8], ledger: &mut [u8], port: u64) -> PackedNext
    ensures { carried (unpacked result) domain.new ledger.new ≡ close_bytes link_bits domain.old ledger.old port }
{
    let Some(record) = domain.first_chunk_mut() else {
        return encoded::too_short();
    };
    encoded::next_or_answer(close(record, ledger, Port(numbers::narrowed(port))))
}

fn set_priority(
    domain: &mut DomainBytes,
    ledger: &mut [u8],
    port: Port,
    priority: u64,
) -> Result<PackedNext, Answer>
    ensures { carried (next_or_answer result) domain.new ledger.new ≡ started link_bits (starts_of link_bits (SetPriority (priority_at (narrow priority)))) domain.old ledger.old port }
{
    let entry = accepted(domain, ledger, port)?;
    let level = Priority(numbers::narrowed(priority));
    if 15 < level.0 {
        return Err(Answer::BadPriority);
    }
    Ok(settled(ledger, port, word::entry::with_priority(entry, level)))
}

pub fn evtchn_fifo_bytes_set_priority(
    domain: &mut [u8],
    ledger: &mut [u8],
    port: u64,
    priority: u64,
) -> PackedNext
    ensures { carried (unpacked result) domain.new ledger.new ≡ set_priority_bytes link_bits domain.old ledger.old port priority }
{
    let Some(record) = domain.first_chunk_mut() else {
        return encoded::too_short();
    };
    let port = Port(numbers::narrowed(port));
    encoded::next_or_answer(set_priority(record, ledger, port, priority))
}

// raise and unmask: 4, 6.
fn link(
    domain: &mut DomainBytes,
    ledger: &[u8],
    port: Port,
    owner: Owner,
) -> Result<PackedNext, Answer>
    requires { is_free owner ≡ false }
    ensures { carried (next_or_answer result) domain.new ledger.now ≡ started link_bits (begin_link link_bits owner) domain.old ledger.now port }
{
    let entry = accepted(domain, ledger, port)?;
    if !word::entry::is_bound(entry) {
        return Err(Answer::NotBound);
    }
    if !inside(domain, port) {
        return Err(Answer::OutsideArray);
    }
    Ok(begun(domain, owner, port))
}

pub fn evtchn_fifo_bytes_raise(domain: &mut [u8], ledger: &mut [u8], port: u64) -> PackedNext
    ensures { carried (unpacked result) domain.new ledger.new ≡ raise_bytes link_bits domain.old ledger.old port }
{
    let Some(record) = domain.first_chunk_mut() else {
        return encoded::too_short();
    };
    encoded::next_or_answer(link(record, ledger, Port(numbers::narrowed(port)), Owner::Raise))
}

pub fn evtchn_fifo_bytes_unmask(domain: &mut [u8], ledger: &mut [u8], port: u64) -> PackedNext
    ensures { carried (unpacked result) domain.new ledger.new ≡ unmask_bytes link_bits domain.old ledger.old port }
{
    let Some(record) = domain.first_chunk_mut() else {
        return encoded::too_short();
    };
    encoded::next_or_answer(link(record, ledger, Port(numbers::narrowed(port)), Owner::Unmask))
}

// Here and in the guest's reply each refusal stands behind what its test lets through: the compiler lays code out in that order, so
// that a call which goes on takes no jump.
fn reply(domain: &mut DomainBytes, ledger: &mut [u8], seen: u32) -> PackedNext
    ensures { carried (unpacked result) domain.new ledger.new ≡ replied link_bits domain.old ledger.old seen }
{
    if domain_record::is_under_way(domain) {
        let port = Port(numbers::u32_at(domain, layout::PORT));
        if ledger::has_entry(ledger, port) {
            // Taken by lengths that the compiler knows: first_chunk_mut would test the ledger's once more, by 4 instructions a reply.
            let (_, rest) = ledger.split_at_mut(port.0 as usize * 2);
            let (pair, _) = rest.split_at_mut(2);
            let entry = pair.as_mut_array().unwrap();
            return replies::reply_staged(domain, entry, seen);
        }
        return encoded::encoded_answer(Answer::NoEntry, 0);
    }
    encoded::encoded_answer(Answer::NoCall, 0)
}

// The reply to the access that was named last, with the word seen.
pub fn evtchn_fifo_bytes_reply(domain: &mut [u8], ledger: &mut [u8], seen: u32) -> PackedNext
    ensures { carried (unpacked result) domain.new ledger.new ≡ reply_bytes link_bits domain.old ledger.old seen }
{
    match domain.first_chunk_mut() {
        Some(record) => reply(record, ledger, seen),
        None => encoded::too_short(),
    }
}

// The access that the call under way waits for; 16 where none is.
#[tactic(auto, using(crate::proofs::DomainFront::due_front), unfolding(crate::specs::Hypervisor::due_bytes))]
pub fn evtchn_fifo_bytes_due(domain: &[u8]) -> PackedNext
    ensures { unpacked result ≡ due_bytes link_bits domain.now }
{
    let Some(record) = domain.first_chunk() else {
        return encoded::too_short();
    };
    next_at(record, domain_record::call_at(record), Answer::NoCall, 0)
}
