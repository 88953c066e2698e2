// T-01's theorems: domains with cables as one system, the fence, and demands 1 and 3 for each domain. This crate has no code.
#![tactic(auto)]
