// The messages of the RPKI-to-Router protocol.
#![tactic(auto)]

pub mod version;
