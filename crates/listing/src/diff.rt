// All that the program `snapdiff` writes for two files.
ghost use Rattle.std.specs.Prelude.{◌≡◌, length};
ghost use Rattle.serial.specs.Serial.{zero_serial};
ghost use Rattle.delta.specs.Answer.{construct_of, construct_out};
ghost use Rattle.listing.specs.Answer.{report_at, report_of, delta_after, diff_of, diff_out};

use crate::report::{Report, write_report};
use delta::construct::construct;
use delta::refusal::Refusal;
use serial::Serial;

// What became of reading a file.
// Kept: three answers, and a table over two of them (`report_of`).
#[derive(Clone, Copy)]
pub enum File {
    // It cannot be opened or read.
    Absent,
    // It is longer than its buffer.
    TooLong,
    Read,
}

// The difference of two snapshots, from serial 0, into `delta`.
fn report_change(old: &[u8], new: &[u8], delta: &mut [u8]) -> Report
    ensures { (result ≡ report_at (construct_of old.now new.now zero_serial (length delta.old))) × (delta.new ≡ construct_out old.now new.now delta.old) }
{
    match construct(old, new, Serial(0), delta) {
        Ok(Some((serial, counts))) => Report::Changed(serial, counts),
        Ok(None) => Report::Same,
        Err(refusal) => Report::Refused(refusal),
    }
}

// What is to be said of two files: absent ones first, then those that are too long.
fn report_of(first: File, old: &[u8], second: File, new: &[u8], delta: &mut [u8]) -> Report
    ensures { (result ≡ report_of first old.now second new.now (length delta.old)) × (delta.new ≡ delta_after first old.now second new.now delta.old) }
{
    match first {
        File::Absent => Report::Absent(1),
        File::TooLong => match second {
            File::Absent => Report::Absent(2),
            File::TooLong | File::Read => Report::Refused(Refusal::TooLong { argument: 1 }),
        },
        File::Read => match second {
            File::Absent => Report::Absent(2),
            File::TooLong => Report::Refused(Refusal::TooLong { argument: 2 }),
            File::Read => report_change(old, new, delta),
        },
    }
}

// The text for two files, with `delta` for their difference.
pub fn diff_text(
    first: File,
    old: &[u8],
    second: File,
    new: &[u8],
    delta: &mut [u8],
    out: &mut [u8],
) -> Result<usize, Refusal>
    ensures { (result ≡ diff_of first old.now second new.now (length delta.old) (length out.old)) × ((delta.new ≡ delta_after first old.now second new.now delta.old) × (out.new ≡ diff_out first old.now second new.now (length delta.old) out.old)) }
{
    let report = report_of(first, old, second, new, delta);
    write_report(report, delta, out)
}
