// The answer of an update.
use crate::state::History;
use delta::refusal::Refusal;
use item::sink::Counts;

#[derive(Clone, Copy)]
pub enum Update {
    // The first snapshot is current; the serial stays the one that the history started with.
    First,
    Unchanged,
    // The delta that was added.
    Changed(Counts),
}

#[derive(Clone, Copy)]
pub struct Updated {
    pub answer: Result<Update, Refusal>,
    pub history: History,
}
