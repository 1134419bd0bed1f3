// Offsets of payload messages put into message order.
#![tactic(auto)]

pub mod merge;
pub mod runs;
pub mod settle;
pub mod sort;
