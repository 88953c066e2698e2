// The access log with call lines: a line as a value, its writer, its reader, and the line of an event.
#![tactic(auto)]

pub mod event;
pub mod line;
pub mod read;
pub mod text;
