// The full answer.
use delta::refusal::Refusal;
use serial::{Serial, Session};

#[derive(Clone, Copy)]
pub struct Full {
    pub session: Session,
    pub serial: Serial,
    // The length of the held snapshot.
    pub answer: Result<usize, Refusal>,
}
