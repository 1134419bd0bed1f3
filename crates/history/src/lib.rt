// The history of a server's snapshots and what it serves.
#![tactic(auto)]

pub mod create;
pub mod full;
pub mod notify;
pub mod push;
pub mod query;
pub mod stores;
pub mod update;
pub mod well_formed;
