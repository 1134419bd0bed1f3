// What another cache sends, judged against our copy of the snapshot that it leads on from.
#![tactic(auto)]

pub mod check;
pub mod find;
pub mod judge;
pub mod least;
pub mod put;
pub mod write;
