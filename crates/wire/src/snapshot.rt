// A snapshot written as messages: measured first unless it surely fits, so that nothing is written where not all of it fits.
ghost use Rattle.std.specs.Prelude.{◌≡◌, ◌≤◌, length};
ghost use Rattle.wire.specs.Answer.{all_new, answer_bytes};
ghost use Rattle.wire.specs.Put.{Holds, LaidIs, AnswerIs, TallyIs, writing_of, answer_out};

use crate::frame::{Frame, close, open, opened};
use crate::origins::put_origins;
use crate::tally::{Tally, put_item};
use item::reading::{Reading, read_at};
use message::version::Version;

// The messages of a good snapshot: runs of origins, and the fields between them.
fn put_items(version: Version, s: &[u8], out: &mut [u8]) -> Tally
    requires { Holds s.now }
    ensures { LaidIs version (all_new s.now) out.old out.new result }
{
    let mut t = opened();
    let mut at = 0;
    loop {
        let run = put_origins(version, s, at, out, t);
        let Some(entry) = read_at(Reading::Announced, s, run.at) else {
            return run.tally;
        };
        t = put_item(version, s, entry.key, entry.act, out, run.tally);
        at = entry.next;
    }
}

// The whole answer, as far as there is room.
fn put_full(version: Version, frame: Frame, s: &[u8], out: &mut [u8]) -> Tally
    requires { Holds s.now }
    ensures { AnswerIs version frame (all_new s.now) out.old out.new result }
{
    open(version, frame, out);
    let t = put_items(version, s, out);
    close(version, frame, out, t)
}

// Its length and counts.
fn measure(version: Version, frame: Frame, s: &[u8]) -> Tally
    requires { Holds s.now }
    ensures { TallyIs version frame (all_new s.now) result }
{
    let mut nothing = [0u8; 1];
    put_full(version, frame, s, &mut nothing)
}

// The answer, which has at most so many bytes, if there is room for all of it; else nothing is written.
// Kept: as `put_merged`, over a snapshot: a closure that writes would be called under two outputs.
pub(crate) fn put_snapshot(
    version: Version,
    frame: Frame,
    s: &[u8],
    most: usize,
    out: &mut [u8],
) -> Option<Tally>
    requires { Holds s.now × (length (answer_bytes version frame (all_new s.now)) ≤ most) }
    ensures { (result ≡ writing_of version frame (all_new s.now) (length out.old)) × (out.new ≡ answer_out version frame (all_new s.now) out.old) }
{
    if most <= out.len() {
        return Some(put_full(version, frame, s, out));
    }
    let t = measure(version, frame, s);
    if out.len() < t.len {
        return None;
    }
    put_full(version, frame, s, out);
    Some(t)
}
