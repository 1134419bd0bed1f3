// The payload messages of an answer in message order, a batch at a time.
#![tactic(auto)]

pub mod bound;
pub mod collect;
pub mod map;
pub mod next;
pub mod survey;
