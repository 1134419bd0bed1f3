// What is answered to each query, and to the call.
ghost use Rattle.std.specs.Prelude.{◌≡◌};
ghost use Rattle.appliance.specs.QueryAll.{served_at, refused_with};

use delta::refusal::Refusal;
use item::sink::Counts;
use serial::{Serial, Session};

// A delta: kind 1, where it starts in the output, its length and counts. A refusal: kind 0 and its number.
#[repr(C)]
#[derive(Clone, Copy)]
pub struct Reply {
    pub kind: u32,
    pub number: u32,
    pub offset: u64,
    pub length: u64,
    pub announced: u64,
    pub withdrawn: u64,
}

// The call's refusal, or a reply for each query, in order; those past the count are zeros.
// Kept: 384 replies and how many of them count, since C gets them by value.
#[derive(Drop)]
pub struct Replied {
    pub admitted: Result<(), Refusal>,
    pub session: Session,
    pub serial: Serial,
    pub used: usize,
    pub count: u32,
    pub replies: [Reply; 384],
}

// A delta that starts at `at`.
pub(crate) fn served_at(at: usize, c: Counts) -> Reply
    ensures { result ≡ served_at at c }
{
    Reply {
        kind: 1,
        number: 0,
        offset: at as u64,
        length: c.len as u64,
        announced: c.announced as u64,
        withdrawn: c.withdrawn as u64,
    }
}

// A refusal's number; every other number is 0.
pub(crate) fn refused_with(r: Refusal) -> Reply
    ensures { result ≡ refused_with r }
{
    Reply {
        kind: 0,
        number: r.number() as u32,
        offset: 0,
        length: 0,
        announced: 0,
        withdrawn: 0,
    }
}
