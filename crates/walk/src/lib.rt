// The walk over two runs of fields, for difference, merge and application alike.
#![tactic(auto)]

pub mod origins;
pub mod pass;
pub mod walk;
