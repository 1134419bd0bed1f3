// The check of a whole snapshot or delta.
#![tactic(auto)]

pub mod check;
pub mod origins;
pub mod pass;
