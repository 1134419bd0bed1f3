// What the walk passes without a turn of its own: the run that two snapshots have in common, which is no part of their
// difference; the run of a snapshot below a delta's next item, which is copied as it lies; the origins of two deltas.
ghost use Rattle.body.specs.declared.tag.Form.TheVariants.{Snapshot};
ghost use Rattle.item.specs.declared.reading.Reading.TheVariants.{Announced, Changes};
ghost use Rattle.walk.specs.Walk.{Stands, Wrote};

use crate::origins::put_origins;
use body::tag::Form;
use item::copy::copy;
use item::place::Part;
use item::reading::{Reading, Run};
use item::sink::Counts;
use turn::seek::{bound_at, seek};
use turn::skip::skip;

// Where the walk stands on both sides, and what was counted.
#[derive(Clone, Copy)]
pub struct Stand {
    pub left: usize,
    pub right: usize,
    pub counts: Counts,
}

// The run of a snapshot below the delta's next item.
fn put_below(a: &[u8], b: &[u8], stand: Stand, out: &mut [u8]) -> Stand
    requires { Stands Announced a.now stand.left Changes b.now stand.right stand.counts }
    ensures { Wrote Snapshot Announced a.now stand.left Changes b.now stand.right stand.counts out.old out.new result.left result.right result.counts }
{
    let Stand {
        left: i,
        right,
        counts,
    } = stand;
    let run = seek(a, i, bound_at(b, right));
    let to = run.at;
    copy(a, Part { from: i, to }, out, counts.len);
    let sum = Counts {
        len: counts.len + (to - i),
        announced: counts.announced + run.count,
        withdrawn: counts.withdrawn,
    };
    Stand {
        left: to,
        right,
        counts: sum,
    }
}

// What needs no turn from where the walk stands.
pub(crate) fn put_pass(form: Form, a: Run, b: Run, stand: Stand, out: &mut [u8]) -> Stand
    requires { Stands a.reading a.bytes.now stand.left b.reading b.bytes.now stand.right stand.counts }
    ensures { Wrote form a.entry.reading a.entry.bytes.now stand.left b.entry.reading b.entry.bytes.now stand.right stand.counts out.old out.new result.left result.right result.counts }
{
    match (form, a.reading, b.reading) {
        (Form::Snapshot, Reading::Announced, Reading::Changes) => put_below(
            a.bytes, b.bytes, stand, out,
        ),
        (Form::Delta, Reading::Changes, Reading::Changes) => put_origins(
            a.bytes, b.bytes, stand, out,
        ),
        _ => {
            let Stand {
                left,
                right,
                counts,
            } = stand;
            let k = skip(a, left, b, right);
            Stand {
                left: left + k,
                right: right + k,
                counts,
            }
        }
    }
}
