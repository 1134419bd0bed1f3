// A delta applied to a snapshot.
ghost use Rattle.std.specs.Prelude.{◌≡◌, length};
ghost use Rattle.delta.specs.Answer.{apply_of, apply_out};

use crate::admit::admit;
use crate::refusal::Refusal;
use body::tag::Form;
use fit::first_misfit;
use item::reading::{Reading, Run};
use walk::walk::put_whole;

// The snapshot with the delta's changes made, written: its length.
pub fn apply(snapshot: &[u8], delta: &[u8], out: &mut [u8]) -> Result<usize, Refusal>
    ensures { (result ≡ apply_of snapshot.now delta.now (length out.old)) × (out.new ≡ apply_out snapshot.now delta.now out.old) }
{
    admit(Form::Snapshot, snapshot, Form::Delta, delta)?;
    if let Some(at) = first_misfit(snapshot, delta) {
        return Err(Refusal::CannotApply { at });
    }
    let Some(counts) = put_whole(
        Form::Snapshot,
        Run {
            reading: Reading::Announced,
            bytes: snapshot,
        },
        Run {
            reading: Reading::Changes,
            bytes: delta,
        },
        out,
    ) else {
        return Err(Refusal::NoRoom);
    };
    Ok(counts.len)
}
