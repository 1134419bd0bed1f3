// The listing of a delta.
ghost use Rattle.std.specs.Prelude.{◌≡◌, length};
ghost use Rattle.delta.specs.Admission.{admit_one_of};
ghost use Rattle.body.specs.declared.tag.Form.TheVariants.{Delta};
ghost use Rattle.delta.specs.Answer.{counts_of};
ghost use Rattle.listing.specs.Answer.{list_of, list_out};

use crate::report::{Report, write_report};
use body::tag::Form;
use delta::admit::admit_one;
use delta::refusal::Refusal;
use item::reading::{Reading, Run};
use item::sink::Counts;
use serial::Serial;
use walk::walk::measure;

// The length and the counts of a delta that was admitted: those of its merge with nothing.
fn counts_of(delta: &[u8]) -> Counts
    requires { admit_one_of Delta delta.now ≡ Ok tt }
    ensures { result ≡ counts_of delta.now }
{
    measure(
        Form::Delta,
        Run {
            reading: Reading::Changes,
            bytes: delta,
        },
        Run {
            reading: Reading::Changes,
            bytes: &delta[..0],
        },
    )
}

// The listing of a delta with this target serial, written: its length.
pub fn listing(delta: &[u8], serial: Serial, out: &mut [u8]) -> Result<usize, Refusal>
    ensures { (result ≡ list_of delta.now serial (length out.old)) × (out.new ≡ list_out delta.now serial out.old) }
{
    admit_one(Form::Delta, delta)?;
    let counts = counts_of(delta);
    write_report(Report::Changed(serial, counts), delta, out)
}
