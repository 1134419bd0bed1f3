// The last deltas of a history, merged and written.
#![tactic(auto)]

pub mod last;
pub mod lengths;
pub mod place;
pub mod put;
