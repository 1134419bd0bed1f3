// The merge of two deltas.
ghost use Rattle.std.specs.Prelude.{◌≡◌, length};
ghost use Rattle.delta.specs.Answer.{merge_of, merge_out};

use crate::admit::admit;
use crate::refusal::Refusal;
use body::tag::Form;
use item::reading::{Reading, Run};
use item::sink::Counts;
use serial::Serial;
use walk::walk::put_whole;

// The earlier delta and then the later one, written: the later's serial, and what was counted.
pub fn merge(
    earlier: &[u8],
    later: &[u8],
    serial: Serial,
    out: &mut [u8],
) -> Result<(Serial, Counts), Refusal>
    ensures { (result ≡ merge_of earlier.now later.now serial (length out.old)) × (out.new ≡ merge_out earlier.now later.now out.old) }
{
    admit(Form::Delta, earlier, Form::Delta, later)?;
    let Some(counts) = put_whole(
        Form::Delta,
        Run {
            reading: Reading::Changes,
            bytes: earlier,
        },
        Run {
            reading: Reading::Changes,
            bytes: later,
        },
        out,
    ) else {
        return Err(Refusal::NoRoom);
    };
    Ok((serial, counts))
}
