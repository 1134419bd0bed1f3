// The notice of a new serial as a message.
ghost use Rattle.std.specs.Prelude.{◌≡◌, length};
ghost use Rattle.wire.specs.Answer.{sent_at, out_at, notify_plan};

use crate::sent::{Reply, Sent, refused};
use crate::tally::Tally;
use delta::refusal::Refusal;
use message::version::Version;
use past::state::History;
use pdu::fixed::put_notify;
use serial::session16;

// A Serial Notify: the 16-bit session and F.
pub fn notify_message(version: Version, history: History, out: &mut [u8]) -> Sent
    ensures { (result ≡ sent_at (notify_plan version history) (length out.old)) × (out.new ≡ out_at (notify_plan version history) out.old) }
{
    if out.len() < 12 {
        return refused(Refusal::NoRoom);
    }
    let session = session16(history.session);
    let serial = history.newest;
    put_notify(version, session, serial, out, 0);
    let t = Tally {
        len: 12,
        announced: 0,
        withdrawn: 0,
        keys: 0,
        aspas: 0,
    };
    Sent {
        session,
        serial,
        reply: Ok(Reply::Data(t)),
    }
}
