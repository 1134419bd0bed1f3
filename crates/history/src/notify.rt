// The notice of a new serial, and whether there is one.
ghost use Rattle.std.specs.Prelude.{◌≡◌};
ghost use Rattle.past.specs.Full.{notify_of, ready_of};

use past::notify::Notice;
use past::state::History;
use serial::{Serial, Session, session16};

// The 16-bit session and F.
pub fn notify(history: History) -> Notice
    ensures { result ≡ notify_of history }
{
    Notice {
        session: session16(history.session),
        serial: history.newest,
    }
}

// The active mark.
pub fn ready(history: History) -> bool
    ensures { result ≡ ready_of history }
{
    history.active
}
