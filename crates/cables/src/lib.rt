// T-01, cables between the ports of up to forty domains: the table and the rules are in specs/, the table's laws in proofs/. This crate
// has no code.
#![tactic(auto)]
