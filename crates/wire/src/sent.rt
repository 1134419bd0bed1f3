// What a call answers that writes messages.
ghost use Rattle.std.specs.Prelude.{◌≡◌};
ghost use Rattle.wire.specs.Answer.{refused_with, aside};

use crate::tally::Tally;
use delta::refusal::Refusal;
use serial::{Serial, Session};

#[derive(Clone, Copy)]
pub enum Reply {
    // The messages that were written.
    Data(Tally),
    // A Cache Reset of this length.
    Reset(usize),
    // An Error Report of this length.
    Report(usize),
}

#[derive(Clone, Copy)]
pub struct Sent {
    pub session: Session,
    pub serial: Serial,
    pub reply: Result<Reply, Refusal>,
}

// An answer that names no session and no serial.
pub(crate) fn alone(reply: Result<Reply, Refusal>) -> Sent
    ensures { result ≡ aside reply }
{
    Sent {
        session: Session(0),
        serial: Serial(0),
        reply,
    }
}

// Refused: other numbers 0.
pub(crate) fn refused(refusal: Refusal) -> Sent
    ensures { result ≡ refused_with refusal }
{
    alone(Err(refusal))
}
