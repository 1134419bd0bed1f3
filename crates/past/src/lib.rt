// What a history holds and answers: its state, and the answers of its calls.
#![tactic(auto)]

pub mod create;
pub mod full;
pub mod notify;
pub mod query;
pub mod state;
pub mod update;
