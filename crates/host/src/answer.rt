// Answers as plain numbers.
ghost use Rattle.std.specs.Prelude.{◌≡◌};
ghost use Rattle.host.specs.Flat.{refused, wrote, of_length, flat_constructed, flat_merged, flat_applied};

use delta::refusal::Refusal;
use item::sink::Counts;
use serial::Serial;

#[repr(C)]
#[derive(Clone, Copy)]
pub struct Answer {
    pub kind: u32,
    pub number: u32,
    pub argument: u32,
    pub serial: Serial,
    pub offset: u64,
    pub length: u64,
    pub announced: u64,
    pub withdrawn: u64,
}

// A refusal's number, argument and offset; every other number is 0.
pub fn refused_as(r: Refusal) -> Answer
    ensures { result ≡ refused r }
{
    Answer {
        kind: 0,
        number: r.number() as u32,
        argument: r.argument() as u32,
        serial: Serial(0),
        offset: r.offset() as u64,
        length: 0,
        announced: 0,
        withdrawn: 0,
    }
}

// What was written, with the serial that it is for.
pub fn wrote_as(kind: u32, serial: Serial, c: Counts) -> Answer
    ensures { result ≡ wrote kind serial c }
{
    Answer {
        kind,
        number: 0,
        argument: 0,
        serial,
        offset: 0,
        length: c.len as u64,
        announced: c.announced as u64,
        withdrawn: c.withdrawn as u64,
    }
}

// A delta, "no change", or a refusal.
pub fn constructed_as(c: Result<Option<(Serial, Counts)>, Refusal>) -> Answer
    ensures { result ≡ flat_constructed c }
{
    match c {
        Ok(Some((serial, counts))) => wrote_as(1, serial, counts),
        Ok(None) => wrote_as(2, Serial(0), of_length(0)),
        Err(r) => refused_as(r),
    }
}

// A delta or a refusal.
pub fn merged_as(m: Result<(Serial, Counts), Refusal>) -> Answer
    ensures { result ≡ flat_merged m }
{
    match m {
        Ok((serial, counts)) => wrote_as(1, serial, counts),
        Err(r) => refused_as(r),
    }
}

// A snapshot's length or a refusal.
pub fn applied_as(p: Result<usize, Refusal>) -> Answer
    ensures { result ≡ flat_applied p }
{
    match p {
        Ok(len) => wrote_as(1, Serial(0), of_length(len)),
        Err(r) => refused_as(r),
    }
}

// A length with no counts.
pub fn of_length(len: usize) -> Counts
    ensures { result ≡ of_length len }
{
    Counts {
        len,
        announced: 0,
        withdrawn: 0,
    }
}
