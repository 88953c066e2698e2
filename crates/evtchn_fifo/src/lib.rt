// The calls as C reaches them: records and ledgers in bytes, plain numbers, and what a call comes to as four numbers. A call
// reads the words of a record that it needs and writes those that change. proofs/ shows that decoding the bytes afterwards
// gives the call of `calls` on the decoded record and ledger.
#![tactic(auto)]

pub mod clear_mask;
pub mod domain_record;
pub mod encoded;
pub mod guest;
pub mod guest_record;
pub mod hypervisor;
pub mod layout;
pub mod ledger;
pub mod numbers;
mod replies;
