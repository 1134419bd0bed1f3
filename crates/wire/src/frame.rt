// What stands around the messages of an answer: its Cache Response and its End of Data.
ghost use Rattle.std.specs.Prelude.{◌≡◌, length};
ghost use Rattle.wire.specs.Answer.{frame_of};
ghost use Rattle.wire.specs.Tally.{Countable};
ghost use Rattle.wire.specs.Put.{OpenIs, CloseIs};

use crate::tally::Tally;
use message::version::{Version, end_length};
use past::state::History;
use pdu::fixed::{put_end, put_response};
use serial::timing::{Timing, clamp};
use serial::{Serial, Session, session16};

// The session, the serial and the times that an answer names.
#[derive(Clone, Copy)]
pub struct Frame {
    pub session: Session,
    pub serial: Serial,
    pub times: Timing,
}

// Those of a history: the 16-bit session, F, and the times within the bounds of the RFC.
pub(crate) fn frame_of(history: History, times: Timing) -> Frame
    ensures { result ≡ frame_of history times }
{
    let serial = history.newest;
    Frame {
        session: session16(history.session),
        serial,
        times: clamp(times),
    }
}

// The Cache Response at the start, if there is room for it.
pub(crate) fn open(version: Version, frame: Frame, out: &mut [u8])
    ensures { OpenIs version frame out.old out.new }
{
    if out.len() < 8 {
        return;
    }
    put_response(version, frame.session, out, 0);
}

// The End of Data behind what was written so far, if there is room for it.
pub(crate) fn close(version: Version, frame: Frame, out: &mut [u8], t: Tally) -> Tally
    requires { Countable t }
    ensures { CloseIs version frame t out.old out.new result }
{
    let size = end_length(version);
    let all = Tally {
        len: t.len + size,
        ..t
    };
    if out.len() < t.len + size {
        return all;
    }
    put_end(
        version,
        frame.session,
        frame.serial,
        frame.times,
        out,
        t.len,
    );
    all
}

// Where the messages start: behind the Cache Response.
pub(crate) fn opened() -> Tally
    ensures { result ≡ record { len = 8; announced = 0; withdrawn = 0; keys = 0; aspas = 0 } }
{
    Tally {
        len: 8,
        announced: 0,
        withdrawn: 0,
        keys: 0,
        aspas: 0,
    }
}
