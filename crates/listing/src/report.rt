// What is written: a listing, or one line.
ghost use Rattle.std.specs.Prelude.{◌≡◌, length, take};
ghost use Rattle.delta.specs.Answer.{out_after};
ghost use Rattle.listing.specs.Listing.{listing_of};
ghost use Rattle.listing.specs.Put.{Puts};
ghost use Rattle.listing.specs.Report.{refused_line, absent_line, written_of, listed_of};
ghost use Rattle.listing.specs.Told.{Counted, Told, len_of};

use crate::line::put_lines;
use crate::text::{put_named, put_text, put_three};
use delta::refusal::Refusal;
use item::sink::Counts;
use serial::Serial;

// Kept: four texts; a file is the number that is written.
#[derive(Clone, Copy)]
pub enum Report {
    // A delta: its target serial, and how long it is, with its counts.
    Changed(Serial, Counts),
    Same,
    Refused(Refusal),
    // This file is absent.
    Absent(u8),
}

// The listing of a delta, which lies at the start of `delta`.
fn put_listing(serial: Serial, counts: Counts, delta: &[u8], out: &mut [u8]) -> usize
    requires { Counted counts delta.now }
    ensures { Puts out.old 0 (listing_of serial (take counts.len delta.now)) out.new result }
{
    let announced = counts.announced as u64;
    let withdrawn = counts.withdrawn as u64;
    let i = put_three(
        b"serial ",
        serial.0 as u64,
        b" announced ",
        announced,
        b" withdrawn ",
        withdrawn,
        out,
    );
    let len = counts.len;
    put_lines(&delta[..len], out, i)
}

// The line of a refusal.
fn put_refused(refusal: Refusal, out: &mut [u8]) -> usize
    ensures { Puts out.old 0 (refused_line refusal) out.new result }
{
    let number = refusal.number() as u64;
    let argument = refusal.argument() as u64;
    let offset = refusal.offset() as u64;
    put_three(
        b"refused ",
        number,
        b" argument ",
        argument,
        b" at ",
        offset,
        out,
    )
}

// The line of an absent file.
fn put_absent(file: u8, out: &mut [u8]) -> usize
    ensures { Puts out.old 0 (absent_line file) out.new result }
{
    let i = put_named(b"no file ", file as u64, out, 0);
    put_text(b"\n", out, i)
}

// The text of a report, as far as out has room; how long it is whether out has room or not.
fn put_report(report: Report, delta: &[u8], out: &mut [u8]) -> usize
    requires { Told report delta.now }
    ensures { Puts out.old 0 (written_of report (take (len_of report) delta.now)) out.new result }
{
    match report {
        Report::Changed(serial, counts) => put_listing(serial, counts, delta, out),
        Report::Same => put_text(b"no change\n", out, 0),
        Report::Refused(refusal) => put_refused(refusal, out),
        Report::Absent(file) => put_absent(file, out),
    }
}

// The text of a report, written, if out has room for all of it: its length; else nothing is written.
pub fn write_report(report: Report, delta: &[u8], out: &mut [u8]) -> Result<usize, Refusal>
    requires { Told report delta.now }
    ensures { (result ≡ listed_of (written_of report (take (len_of report) delta.now)) (length out.old)) × (out.new ≡ out_after (Ok tt) (written_of report (take (len_of report) delta.now)) out.old) }
{
    let mut nothing = [0u8; 1];
    let len = put_report(report, delta, &mut nothing);
    if out.len() < len {
        return Err(Refusal::NoRoom);
    }
    put_report(report, delta, out);
    Ok(len)
}
