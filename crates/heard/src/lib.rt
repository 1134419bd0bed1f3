// The messages of one answer, as they are heard.
#![tactic(auto)]

pub mod check;
pub mod compare;
pub mod front;
pub mod hear;
pub mod place;
pub mod put;
pub mod sums;
pub mod times;
