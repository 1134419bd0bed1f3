// The listing of a delta as text, and all that the program `snapdiff` writes.
#![tactic(auto)]

pub mod diff;
mod line;
pub mod listing;
mod report;
mod text;
