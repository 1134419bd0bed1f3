// The answer of creation.
use crate::state::History;
use delta::refusal::Refusal;

#[derive(Clone, Copy)]
pub struct Created {
    pub answer: Result<(), Refusal>,
    pub history: History,
}
