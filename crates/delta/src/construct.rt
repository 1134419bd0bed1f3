// The difference of two snapshots.
ghost use Rattle.std.specs.Prelude.{◌≡◌, length};
ghost use Rattle.delta.specs.Answer.{construct_of, construct_out};

use crate::admit::admit;
use crate::refusal::Refusal;
use body::tag::Form;
use item::reading::{Reading, Run};
use item::sink::Counts;
use serial::{Serial, next};
use walk::walk::put_whole;

// What leads from old to new, written: the serial after the old one, and what was counted; nothing where nothing changed.
pub fn construct(
    old: &[u8],
    new: &[u8],
    serial: Serial,
    out: &mut [u8],
) -> Result<Option<(Serial, Counts)>, Refusal>
    ensures { (result ≡ construct_of old.now new.now serial (length out.old)) × (out.new ≡ construct_out old.now new.now out.old) }
{
    admit(Form::Snapshot, old, Form::Snapshot, new)?;
    let Some(counts) = put_whole(
        Form::Delta,
        Run {
            reading: Reading::Withdrawn,
            bytes: old,
        },
        Run {
            reading: Reading::Announced,
            bytes: new,
        },
        out,
    ) else {
        return Err(Refusal::NoRoom);
    };
    if counts.len == 0 {
        return Ok(None);
    }
    Ok(Some((next(serial), counts)))
}
