// Fields of snapshots and deltas: heads, keys, words, and what the check of a whole run of fields finds.
#![tactic(auto)]

pub mod head;
pub mod key;
pub mod verdict;
pub mod words;
