// Messages in message order against a snapshot: the first of the answer that does not fit.
ghost use Rattle.std.specs.Prelude.{◌≡◌, cond, not};
ghost use Rattle.heard.specs.Place.{Payload};
ghost use Rattle.judge.specs.Walk.{follows, lesser};
ghost use Rattle.judge.specs.State.{Last, Next, Chain, Checked, ChecksOne, Checks};

use crate::find::find;
use heard::compare::same_record;
use heard::place::announces;
use std::cmp::min;

// How far the search has come.
// Kept: 0 for no message, since `least_fault` of the specs speaks of 0 as before all.
#[derive(Clone, Copy)]
pub struct Check {
    // The last message.
    pub last: usize,
    // The snapshot's fields before it are not above that one's record.
    pub field: usize,
    // The least offset of a message at fault so far.
    pub least: usize,
}

// Whether the message at x is of the same record as the last one, if there is one.
pub(crate) fn is_next(s: &[u8], last: usize, x: usize) -> bool
    requires { Last s.now last × Payload s.now x }
    ensures { result ≡ follows s.now last x }
{
    if last == 0 {
        return false;
    }
    same_record(s, last, x)
}

// Whether a message is at fault, by what it says and whether its record stands.
fn is_fault(announced: bool, stands: bool) -> bool
    ensures { result ≡ cond announced stands (not stands) }
{
    if announced { stands } else { !stands }
}

// The lower of an offset, if it is at fault, and the least so far.
fn lower_fault(fault: bool, x: usize, least: usize) -> usize
    ensures { result ≡ lesser fault x least }
{
    if !fault {
        return least;
    }
    min(x, least)
}

// One message more.
fn check_one(snapshot: &[u8], s: &[u8], x: usize, c: Check) -> Check
    requires { Checked snapshot.now s.now c × Next s.now c.last x }
    ensures { ChecksOne snapshot.now s.now c x result }
{
    let last = c.last;
    if is_next(s, last, x) {
        let fault = is_fault(announces(s, x), announces(s, last));
        return Check {
            last: x,
            field: c.field,
            least: lower_fault(fault, x, c.least),
        };
    }
    let found = find(snapshot, c.field, s, x);
    let fault = is_fault(announces(s, x), found.from < found.to);
    Check {
        last: x,
        field: found.to,
        least: lower_fault(fault, x, c.least),
    }
}

// The messages at these offsets more.
pub(crate) fn check_batch(snapshot: &[u8], s: &[u8], offsets: &[usize], from: Check) -> Check
    requires { Checked snapshot.now s.now from × Chain s.now from.last offsets.now }
    ensures { Checks snapshot.now s.now from offsets.now result }
{
    let mut c = from;
    for x in offsets {
        c = check_one(snapshot, s, *x, c);
    }
    c
}
