// The full answer.
ghost use Rattle.std.specs.Prelude.{◌≡◌};
ghost use Rattle.past.specs.Full.{full_of};

use crate::well_formed::well_formed;
use delta::refusal::Refusal;
use past::full::Full;
use past::state::History;
use serial::{Serial, Session, session16};

// The 16-bit session, F and the held snapshot; refusal 7 alone.
pub fn full_answer(history: History, snapshots: &[u8], deltas: &[u8]) -> Full
    ensures { result ≡ full_of history snapshots.now deltas.now }
{
    if !well_formed(history, snapshots, deltas) {
        return Full {
            session: Session(0),
            serial: Serial(0),
            answer: Err(Refusal::IllFormed),
        };
    }
    Full {
        session: session16(history.session),
        serial: history.newest,
        answer: Ok(history.snapshot as usize),
    }
}
