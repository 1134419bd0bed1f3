// The C interface: numbers, byte slices and structs by value.
#![tactic(auto)]

pub mod answer;
pub mod calls;
pub mod judged;
pub mod sent;
pub mod state;
pub mod told;
pub mod version;
