// What the calls that write messages hand back.
ghost use Rattle.std.specs.Prelude.{◌≡◌};
ghost use Rattle.host.specs.Sent.{instead_of, flat_reply, keys_skipped, aspas_skipped, flat_sent};

use crate::answer::{Answer, refused_as, wrote_as};
use delta::refusal::Refusal;
use item::sink::Counts;
use serial::{Serial, Session};
use wire::sent::Reply;

#[repr(C)]
#[derive(Clone, Copy)]
pub struct Sent {
    pub answer: Answer,
    pub session: Session,
    // The router keys and the ASPAs that there is no message for.
    pub keys: u64,
    pub aspas: u64,
}

// A message that stands in place of data: its kind, the refusal's number, and its length.
fn instead(kind: u32, number: u32, len: usize) -> Answer
    ensures { result ≡ instead_of kind number len }
{
    Answer {
        kind,
        number,
        argument: 0,
        serial: Serial(0),
        offset: 0,
        length: len as u64,
        announced: 0,
        withdrawn: 0,
    }
}

fn reply_as(reply: Result<Reply, Refusal>, serial: Serial) -> Answer
    ensures { result ≡ flat_reply reply serial }
{
    match reply {
        Err(r) => refused_as(r),
        Ok(Reply::Data(t)) => {
            let counts = Counts {
                len: t.len,
                announced: t.announced,
                withdrawn: t.withdrawn,
            };
            wrote_as(1, serial, counts)
        }
        Ok(Reply::Reset(len)) => instead(2, 6, len),
        Ok(Reply::Report(len)) => instead(3, 5, len),
    }
}

// Kept: this and the next are two columns of what C gets.
fn keys_skipped(reply: Result<Reply, Refusal>) -> u64
    ensures { result ≡ keys_skipped reply }
{
    match reply {
        Ok(Reply::Data(t)) => t.keys as u64,
        Ok(Reply::Reset(_)) | Ok(Reply::Report(_)) | Err(_) => 0,
    }
}

fn aspas_skipped(reply: Result<Reply, Refusal>) -> u64
    ensures { result ≡ aspas_skipped reply }
{
    match reply {
        Ok(Reply::Data(t)) => t.aspas as u64,
        Ok(Reply::Reset(_)) | Ok(Reply::Report(_)) | Err(_) => 0,
    }
}

pub fn sent_as(s: wire::sent::Sent) -> Sent
    ensures { result ≡ flat_sent s }
{
    Sent {
        answer: reply_as(s.reply, s.serial),
        session: s.session,
        keys: keys_skipped(s.reply),
        aspas: aspas_skipped(s.reply),
    }
}
