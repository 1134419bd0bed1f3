// All the queries of an appliance in one call: the history is checked once, and routers that ask for the same serial share
// one walk.
#![tactic(auto)]

pub mod query_all;
pub mod repeat;
pub mod reply;
pub mod router_turn;
