// A recorded log played over lent pages, piece by piece, by the functions that C links.
#![tactic(auto)]

pub mod player;
