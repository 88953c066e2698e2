// T-01, cables between the ports of up to forty domains, as C reaches them: a lent table of 1,024 cables; lay, cut and send; close
// and reply for domains that may have cables.
#![tactic(auto)]

pub mod closing;
pub mod ends;
pub mod joining;
pub mod refusals;
pub mod table;
