// One message of the RPKI-to-Router protocol, written into a lent slice that has room for it.
#![tactic(auto)]

pub mod fixed;
pub mod head;
pub mod record;
