// The body of a field, and what its tag says of it.
#![tactic(auto)]

pub mod aspa;
pub mod origin;
pub mod router_key;
pub mod tag;
