// Difference, merge and application of snapshots and deltas as bytes, with their refusals.
#![tactic(auto)]

pub mod admit;
pub mod apply;
pub mod construct;
pub mod merge;
pub mod refusal;
