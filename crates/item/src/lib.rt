// Items: a field read as a change, the merge table at one key, and an item written into a lent slice.
#![tactic(auto)]

pub mod copy;
pub mod front;
pub mod place;
pub mod reading;
pub mod sink;
pub mod table;
