// The answers of a history as messages of the RPKI-to-Router protocol.
#![tactic(auto)]

pub mod deltas;
pub mod frame;
pub mod full;
pub mod notify;
pub mod origins;
pub mod query;
pub mod sent;
pub mod snapshot;
pub mod tally;
