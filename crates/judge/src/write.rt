// Messages in message order over a snapshot: what they leave of it, written.
ghost use Rattle.std.specs.Prelude.{◌≡◌, ◌∷◌, [], ◌+◌, length};
ghost use Rattle.std.proofs.lemmas.List.Edits.{sets};
ghost use Rattle.judge.specs.State.{Next, Chain, Written, Fitting, Writes, settled_field, Settles};

use crate::check::is_next;
use crate::find::find;
use heard::place::announces;
use heard::put::put_record;
use item::copy::copy;
use item::place::Part;

// How far the writing has come.
// Kept: 0 for no message, as in `Check`.
#[derive(Clone, Copy)]
pub struct Write {
    // The last message: its record is settled when the next one comes.
    pub last: usize,
    // The snapshot's fields before it are written or left out.
    pub field: usize,
    // How many bytes are written.
    pub end: usize,
}

// The record of the last message, if that announces it.
pub(crate) fn settle(s: &[u8], last: usize, out: &mut [u8], end: usize) -> usize
    requires { Settles s.now last out.old end }
    ensures { (result ≡ end + length (settled_field s.now last)) × (out.new ≡ sets out.old end (settled_field s.now last)) }
{
    if last == 0 {
        return end;
    }
    if !announces(s, last) {
        return end;
    }
    end + put_record(s, last, out, end)
}

// One message more.
fn write_one(snapshot: &[u8], s: &[u8], x: usize, out: &mut [u8], w: Write) -> Write
    requires { Written snapshot.now s.now w × (Next s.now w.last x × Fitting snapshot.now s.now w (x ∷ []) out.old) }
    ensures { Writes snapshot.now s.now w (x ∷ []) out.old out.new result }
{
    if is_next(s, w.last, x) {
        return Write {
            last: x,
            field: w.field,
            end: w.end,
        };
    }
    let from = w.field;
    let found = find(snapshot, from, s, x);
    let to = found.from;
    let end = settle(s, w.last, out, w.end);
    copy(snapshot, Part { from, to }, out, end);
    Write {
        last: x,
        field: found.to,
        end: end + (to - from),
    }
}

// The messages at these offsets more.
pub(crate) fn write_batch(
    snapshot: &[u8],
    s: &[u8],
    offsets: &[usize],
    out: &mut [u8],
    from: Write,
) -> Write
    requires { Written snapshot.now s.now from × (Chain s.now from.last offsets.now × Fitting snapshot.now s.now from offsets.now out.old) }
    ensures { Writes snapshot.now s.now from offsets.now out.old out.new result }
{
    let mut w = from;
    for x in offsets {
        w = write_one(snapshot, s, *x, out, w);
    }
    w
}
