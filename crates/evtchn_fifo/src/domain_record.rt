// A domain's record in bytes: its fields read and written.
#![tactic(auto, unfolding(crate::specs::DomainRecord::owner_of, crate::specs::DomainRecord::stage_of, crate::specs::DomainRecord::given_at, crate::specs::DomainRecord::owner_at, crate::specs::DomainRecord::call_at, crate::specs::DomainRecord::put_call, crate::specs::DomainRecord::put_next, crate::specs::DomainRecord::put_domain))]

ghost use Rattle.std.specs.Prelude.{◌≡◌, not};
ghost use Rattle.calls.specs.Records.{is_free};
ghost use Rattle.evtchn_fifo.specs.DomainRecord.{owner_code, owner_of, stage_code, stage_of, given_code, given_at, given_in, pages_in, owner_at, call_at, closing_in, put_next, put_call, put_domain};

use crate::layout::DomainBytes;
use crate::{layout, numbers};
use calls::types::{Call, Domain, Owner, Stage};
use word::{Port, Queue};

// Owners and stages are declared in the order of their codes. No `From`, as for the way back.
pub fn owner_code(owner: Owner) -> u32
    ensures { result ≡ owner_code owner }
{
    owner as u32
}

// The owner of a code; none where it is no owner's. No `TryFrom`, here and for stages: the types are of `calls`, which has no codes, and an
// impl may stand only there; and no code is a failure.
pub fn owner_of(code: u32) -> Owner
    ensures { result ≡ owner_of code }
{
    match code {
        1 => Owner::Bind,
        2 => Owner::Close,
        3 => Owner::Raise,
        4 => Owner::Unmask,
        _ => Owner::None,
    }
}

pub fn stage_code(stage: Stage) -> u32
    ensures { result ≡ stage_code stage }
{
    stage as u32
}

// The stage of a code; the first where it is no stage's, and then no call is under way.
pub fn stage_of(code: u32) -> Stage
    ensures { result ≡ stage_of code }
{
    match code {
        1 => Stage::R2,
        2 => Stage::R3,
        3 => Stage::R4,
        4 => Stage::R5,
        5 => Stage::R6,
        6 => Stage::SetBusy,
        7 => Stage::ClearBusy,
        _ => Stage::First,
    }
}

pub fn given_code(given: bool) -> u32
    ensures { result ≡ given_code given }
{
    u32::from(given)
}

pub(crate) fn given_at(domain: &DomainBytes) -> bool
    ensures { result ≡ given_at domain.now }
{
    numbers::u32_at(domain, layout::GIVEN) != 0
}

// Whether the control block is given; not where the record is too short.
pub fn given_in(domain: &[u8]) -> bool
    ensures { result ≡ given_in domain.now }
{
    layout::DOMAIN_SIZE <= domain.len() && numbers::u32_at(domain, layout::GIVEN) != 0
}

// The array's pages; none where the record is too short.
pub fn pages_in(domain: &[u8]) -> u32
    ensures { result ≡ pages_in domain.now }
{
    if domain.len() < layout::DOMAIN_SIZE {
        return 0;
    }
    numbers::u32_at(domain, layout::PAGES)
}

// The call under way's owner; none where its owner's or its stage's code is none of the list's.
pub(crate) fn owner_at(domain: &DomainBytes) -> Owner
    ensures { result ≡ owner_at domain.now }
{
    if numbers::u32_at(domain, layout::STAGE) < 8 {
        return owner_of(numbers::u32_at(domain, layout::OWNER));
    }
    Owner::None
}

// Whether a call is under way, told by the codes: a test on numbers is compiled to less than one on an owner. The stage is tested by itself:
// joined by &&, both words are read and tested at every call, 4 instructions more.
#[tactic(auto, using(crate::proofs::UnderWayLaws::under_way_is), unfolding(crate::specs::DomainRecord::owner_at, crate::specs::DomainRecord::call_at))]
pub(crate) fn is_under_way(domain: &DomainBytes) -> bool
    ensures { result ≡ not (is_free (call_at domain.now).owner) }
{
    if 8 <= numbers::u32_at(domain, layout::STAGE) {
        return false;
    }
    let owner = numbers::u32_at(domain, layout::OWNER);
    0 < owner && owner < 5
}

pub(crate) fn call_at(domain: &DomainBytes) -> Call
    ensures { result ≡ call_at domain.now }
{
    Call {
        owner: owner_at(domain),
        stage: stage_of(numbers::u32_at(domain, layout::STAGE)),
        port: Port(numbers::u32_at(domain, layout::PORT)),
        queue: Queue(numbers::u32_at(domain, layout::QUEUE)),
        word: numbers::u32_at(domain, layout::WORD),
        tries: numbers::u32_at(domain, layout::TRIES),
        count: numbers::u32_at(domain, layout::COUNT),
    }
}

// The port of the close whose reply is due; 0 where the call under way is no close, and where the record is too short: 0 is no port, and
// `closing_port` of calls/specs/Records and the clauses of evtchn_cables say it so.
#[tactic(auto, using(crate::proofs::UnderWayLaws::closes_port, crate::proofs::UnderWayLaws::closes_later, crate::proofs::UnderWayLaws::closes_none))]
pub fn closing_in(domain: &[u8]) -> u32
    ensures { result ≡ closing_in domain.now }
{
    if domain.len() < layout::DOMAIN_SIZE
        || numbers::u32_at(domain, layout::OWNER) != Owner::Close as u32
        || numbers::u32_at(domain, layout::STAGE) != Stage::First as u32
    {
        return 0;
    }
    numbers::u32_at(domain, layout::PORT)
}

pub(crate) fn put_call(domain: &mut DomainBytes, call: Call)
    ensures { domain.new ≡ put_call domain.old call }
{
    numbers::put_u32(domain, layout::OWNER, owner_code(call.owner));
    numbers::put_u32(domain, layout::PORT, call.port.0);
    put_next(domain, call);
}

// The next stage of the call under way: its owner and its port stay.
pub(crate) fn put_next(domain: &mut DomainBytes, call: Call)
    ensures { domain.new ≡ put_next domain.old call }
{
    numbers::put_u32(domain, layout::STAGE, stage_code(call.stage));
    numbers::put_u32(domain, layout::QUEUE, call.queue.0);
    numbers::put_u32(domain, layout::WORD, call.word);
    numbers::put_u32(domain, layout::TRIES, call.tries);
    numbers::put_u32(domain, layout::COUNT, call.count);
}

// A record written whole.
pub(crate) fn put_domain(bytes: &mut DomainBytes, domain: Domain)
    ensures { bytes.new ≡ put_domain bytes.old domain }
{
    numbers::put_u32(bytes, layout::GIVEN, given_code(domain.given));
    numbers::put_u32(bytes, layout::PAGES, domain.pages);
    numbers::put_values(bytes, layout::TAILS, domain.tails);
    put_call(bytes, domain.call);
}
