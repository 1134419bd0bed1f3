// The last deltas merged and written as messages: measured first unless they surely fit, so that nothing is written where
// not all of it fits.
ghost use Rattle.std.specs.Prelude.{◌≡◌, ◌≤◌, length};
ghost use Rattle.cursors.specs.Walk.{remains};
ghost use Rattle.wire.specs.Answer.{answer_bytes};
ghost use Rattle.wire.specs.Put.{Merges, LaidIs, AnswerIs, TallyIs, writing_of, answer_out};

use crate::frame::{Frame, close, open, opened};
use crate::tally::{Tally, put_item};
use cursors::runs::Walk;
use message::version::Version;

// The messages of the merge.
fn put_all(version: Version, walk: &mut Walk, out: &mut [u8]) -> Tally
    requires { Merges walk.old }
    ensures { LaidIs version (remains walk.old) out.old out.new result }
{
    let mut t = opened();
    while let Some((key, act)) = walk.next() {
        t = put_item(version, walk.store, key, act, out, t);
    }
    t
}

// The whole answer, as far as there is room.
fn put_answer(version: Version, frame: Frame, walk: &mut Walk, out: &mut [u8]) -> Tally
    requires { Merges walk.old }
    ensures { AnswerIs version frame (remains walk.old) out.old out.new result }
{
    open(version, frame, out);
    let t = put_all(version, walk, out);
    close(version, frame, out, t)
}

// Its length and counts, by a walk of its own.
fn measure(version: Version, frame: Frame, mut walk: Walk) -> Tally
    requires { Merges walk }
    ensures { TallyIs version frame (remains walk.entry) result }
{
    let mut nothing = [0u8; 1];
    put_answer(version, frame, &mut walk, &mut nothing)
}

// The answer, which has at most so many bytes, if there is room for all of it; else nothing is written.
pub(crate) fn put_merged(
    version: Version,
    frame: Frame,
    walk: &mut Walk,
    most: usize,
    out: &mut [u8],
) -> Option<Tally>
    requires { Merges walk.old × (length (answer_bytes version frame (remains walk.old)) ≤ most) }
    ensures { (result ≡ writing_of version frame (remains walk.old) (length out.old)) × (out.new ≡ answer_out version frame (remains walk.old) out.old) }
{
    if most <= out.len() {
        return Some(put_answer(version, frame, walk, out));
    }
    let t = measure(version, frame, *walk);
    if out.len() < t.len {
        return None;
    }
    put_answer(version, frame, walk, out);
    Some(t)
}
