// All messages of an answer in message order, batch by batch: what they leave of the snapshot, written.
ghost use Rattle.std.specs.Prelude.{◌≡◌, length, []};
ghost use Rattle.std.proofs.lemmas.List.Edits.{sets};
ghost use Rattle.judge.specs.State.{Charted, RoomFor, left_all, left_over, Written, Ending};

use crate::write::{Write, settle, write_batch};
use batch::map::Map;
use batch::next::next;
use item::copy::copy;
use item::place::Part;

// Where all is told: the last record, and the rest of the snapshot.
fn put_rest(snapshot: &[u8], s: &[u8], out: &mut [u8], w: Write)
    requires { Written snapshot.now s.now w × Ending snapshot.now s.now w out.old }
    ensures { out.new ≡ sets out.old w.end (left_over snapshot.now s.now w []) }
{
    let end = settle(s, w.last, out, w.end);
    copy(
        snapshot,
        Part {
            from: w.field,
            to: snapshot.len(),
        },
        out,
        end,
    );
}

// All of the messages.
pub(crate) fn put(
    snapshot: &[u8],
    s: &[u8],
    stop: usize,
    map: &Map,
    buf: &mut [usize; 6000],
    out: &mut [u8],
)
    requires { Charted snapshot.now s.now stop map.now buf.old × RoomFor snapshot.now s.now stop out.old }
    ensures { out.new ≡ sets out.old 0 (left_all snapshot.now s.now stop) }
{
    let mut w = Write {
        last: 0,
        field: 0,
        end: 0,
    };
    loop {
        let batch = next(s, stop, w.last, map, buf);
        w = write_batch(snapshot, s, &buf[..batch.n], out, w);
        if batch.over {
            put_rest(snapshot, s, out, w);
            return;
        }
    }
}
