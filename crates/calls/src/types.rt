// What the calls are made of: accesses, answers, calls under way, and the records of both sides.
use word::{Port, Queue};

// A place in the shared memory.
#[derive(Clone, Copy, PartialEq, Eq)]
pub enum Place {
    Word(Port),
    Ready,
    Head(Queue),
}

// An atomic access: a store's and a swap's value, an or's and an and's operand, a cas's old and new word.
#[derive(Clone, Copy, PartialEq, Eq)]
pub enum Access {
    Read(Place),
    Store(Place, u32),
    Or(Place, u32),
    And(Place, u32),
    Swap(Place, u32),
    Cas(Place, u32, u32),
}

// Document 01's numbers that a call can give, and document 02's 35. LinkBits is init_control's 0.
#[derive(Clone, Copy, PartialEq, Eq)]
pub enum Answer {
    Done,
    LinkBits(u32),
    UpcallWanted,
    LinkAbandoned,
    BadPort,
    NotBound,
    AlreadyBound,
    OutsideArray,
    StillLinked,
    BadPriority,
    AlreadyGiven,
    NotGiven,
    BadFrame,
    BadOffset,
    TooManyPages,
    NoEntry,
    CallUnderWay,
    NoCall,
    BadVcpu,
    BadIndex,
    HandedOver(Port),
    NothingReady,
    Taken(Port),
    CallUnmask,
}

// What a call or a reply comes to: the next access, or the answer with its count of accesses. Neither is a failure of the other, so
// it is no `Result`.
#[derive(Clone, Copy, PartialEq, Eq)]
pub enum Next {
    Access(Access),
    Answer(Answer, u32),
}

// What a mask that is made comes to: its access together with its answer and count.
#[derive(Clone, Copy, PartialEq, Eq)]
pub struct Made {
    pub access: Access,
    pub answer: Answer,
    pub count: u32,
}

// A refusal with its count.
#[derive(Clone, Copy, PartialEq, Eq)]
pub struct Refused {
    pub answer: Answer,
    pub count: u32,
}

// The call that a hypervisor's call under way belongs to. None is no call, whatever the call's other fields hold: a record may be lent
// with any, and `reply` and `due` answer on it, so that `Option<Call>` would ask more of callers. Likewise None of the two stages below.
#[derive(Clone, Copy, PartialEq, Eq)]
pub enum Owner {
    None,
    Bind,
    Close,
    Raise,
    Unmask,
}

// The access that it waits for: the owner's first (a bind's read, a close's and, R1, U1), or one of R2 to R6, with the or that
// sets BUSY on the tail's word after the first cas of R4, and the and that clears it.
#[derive(Clone, Copy, PartialEq, Eq)]
pub enum Stage {
    First,
    R2,
    R3,
    R4,
    R5,
    R6,
    SetBusy,
    ClearBusy,
}

// The hypervisor's call under way. A stage reads the fields that it needs: R3 to R6 the queue, R4 the word that its
// cas compares with and the number of cas named so far, ClearBusy the latest word seen. The count is the number of accesses named
// so far.
#[derive(Clone, Copy, PartialEq, Eq)]
pub struct Call {
    pub owner: Owner,
    pub stage: Stage,
    pub port: Port,
    pub queue: Queue,
    pub word: u32,
    pub tries: u32,
    pub count: u32,
}

// Document 01's house record: whether the control block is given, the array's pages, a tail for each queue (0 is none, and no Option:
// C's bytes hold any number, and `after_r2` asks for 0; likewise a head H).
#[derive(Clone, Copy, PartialEq, Eq)]
pub struct Domain {
    pub given: bool,
    pub pages: u32,
    pub tails: [u32; 16],
    pub call: Call,
}

// A domain after a call or a reply, and what that comes to. It and `GuestOutcome` are no one generic type: their readers
// name the record by its side, as `outcome.domain`. Likewise a hypervisor's call, a service and a clear_mask each have their own functions
// (`call_at`, `goes_on`, `ends`, `next_of`): their fields differ, and a trait over the three would be longer than what it shares.
#[derive(Clone, Copy, PartialEq, Eq)]
pub struct Outcome {
    pub domain: Domain,
    pub next: Next,
}

// The access that a service waits for.
#[derive(Clone, Copy, PartialEq, Eq)]
pub enum GuestStage {
    None,
    G0,
    G1,
    G2,
    G3,
    G4,
}

// The guest's service under way. G1 and G2 read the queue, G2 to G4 the port.
#[derive(Clone, Copy, PartialEq, Eq)]
pub struct GuestCall {
    pub stage: GuestStage,
    pub port: Port,
    pub queue: Queue,
    pub count: u32,
}

// The access that a clear_mask waits for.
#[derive(Clone, Copy, PartialEq, Eq)]
pub enum ClearStage {
    None,
    Read,
    Cas,
}

// The guest's clear_mask under way. The cas compares with the word.
#[derive(Clone, Copy, PartialEq, Eq)]
pub struct ClearCall {
    pub stage: ClearStage,
    pub port: Port,
    pub word: u32,
    pub count: u32,
}

// Document 01's guest record: a head H for each queue, local ready bits, her number of words; the service and the clear_mask
// under way.
#[derive(Clone, Copy, PartialEq, Eq)]
pub struct Guest {
    pub heads: [u32; 16],
    pub ready: u32,
    pub words: u32,
    pub call: GuestCall,
    pub clear: ClearCall,
}

// A guest after a call or a reply, and what that comes to.
#[derive(Clone, Copy, PartialEq, Eq)]
pub struct GuestOutcome {
    pub guest: Guest,
    pub next: Next,
}
