// A turn of the walk over two runs of fields, and the runs that need none.
#![tactic(auto)]

pub mod seek;
pub mod skip;
pub mod stretch;
pub mod turn;
