// The walk over many deltas at once: a cursor for each, the lowest key first.
#![tactic(auto)]

pub mod cursor;
pub mod eights;
pub mod front;
pub mod gather;
pub mod least;
pub mod lone;
pub mod next;
pub mod rank;
pub mod runs;
pub mod said;
