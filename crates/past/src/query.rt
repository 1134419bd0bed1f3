// The answer of a query.
use delta::refusal::Refusal;
use item::sink::Counts;
use serial::{Serial, Session};

#[derive(Clone, Copy)]
pub struct Queried {
    pub session: Session,
    pub serial: Serial,
    // The delta that was written.
    pub answer: Result<Counts, Refusal>,
}
