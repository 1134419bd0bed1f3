// One pass over the bytes of an answer: its payload messages, up to its end or to the first message that is faulty.
ghost use Rattle.std.specs.Prelude.{◌≡◌, ◌≤◌, ◌<◌, length, drop};
ghost use Rattle.heard.specs.Heard.{HeardIs};
ghost use Rattle.heard.specs.Step.{is_whole, Closing, ended_at, Ending, opens, StopIs, EndIs};

use crate::check::is_payload;
use crate::place::size_at;
use crate::sums::{Sums, plus};
use crate::times::times_at;
use message::version::{Version, end_length, number_of};
use number::{two_at, word_at};
use serial::timing::Timing;
use serial::{Serial, Session};

// What a good End of Data says.
#[derive(Clone, Copy)]
pub struct End {
    pub session: Session,
    pub serial: Serial,
    pub times: Timing,
}

// A faulty message, or the end of an answer where a message is missing.
#[derive(Clone, Copy)]
pub struct Fault {
    pub at: usize,
}

// What is heard of an answer.
#[derive(Clone, Copy)]
pub struct Heard {
    // How it stops.
    pub stop: Result<End, Fault>,
    // Where the payload messages end.
    pub over: usize,
    pub sums: Sums,
}

// Whether a header of the version stands at `at`, and as many bytes as it says.
fn is_whole(version: Version, s: &[u8], at: usize) -> bool
    requires { at ≤ length s.now }
    ensures { result ≡ is_whole version (drop at s.now) }
{
    let room = s.len() - at;
    if room < 8 {
        return false;
    }
    if s[at] != number_of(version) {
        return false;
    }
    word_at(s, at) % 4294967296 <= room
}

// The good End of Data at `at`.
fn ended(version: Version, session: usize, s: &[u8], at: usize) -> End
    requires { Closing version s.now at × (session < 65536) }
    ensures { result ≡ ended_at version session s.now at }
{
    End {
        session: Session(session as u16),
        serial: Serial((word_at(s, at + 4) % 4294967296) as u32),
        times: times_at(version, s, at + 12),
    }
}

// How a message of the type End of Data stops the answer.
fn ending(version: Version, session: usize, s: &[u8], at: usize, size: usize) -> Result<End, Fault>
    requires { Ending version s.now at size × (session < 65536) }
    ensures { EndIs version session s.now at result }
{
    if size != end_length(version) {
        return Err(Fault { at });
    }
    if two_at(s, at + 2) != session {
        return Err(Fault { at });
    }
    let end = at + size;
    if end != s.len() {
        return Err(Fault { at: end });
    }
    Ok(ended(version, session, s, at))
}

// How the answer stops at `at`, if no good payload message stands there.
fn stop_at(version: Version, session: usize, s: &[u8], at: usize) -> Option<Result<End, Fault>>
    requires { (at ≤ length s.now) × (session < 65536) }
    ensures { StopIs version session s.now at result }
{
    if !is_whole(version, s, at) {
        return Some(Err(Fault { at }));
    }
    let size = word_at(s, at) % 4294967296;
    if s[at + 1] == 7 {
        return Some(ending(version, session, s, at, size));
    }
    if is_payload(version, s, at, size) {
        return None;
    }
    Some(Err(Fault { at }))
}

// Whether an answer opens with a Cache Response.
fn is_open(version: Version, s: &[u8]) -> bool
    ensures { result ≡ opens version s.now }
{
    if !is_whole(version, s, 0) {
        return false;
    }
    if s[1] != 3 {
        return false;
    }
    word_at(s, 0) % 4294967296 == 8
}

// What is heard in the bytes of an answer.
pub fn hear(version: Version, s: &[u8]) -> Heard
    ensures { HeardIs version s.now result }
{
    let mut sums = Sums {
        announced: 0,
        withdrawn: 0,
        more: 0,
        less: 0,
    };
    if !is_open(version, s) {
        return Heard {
            stop: Err(Fault { at: 0 }),
            over: 8,
            sums,
        };
    }
    let session = two_at(s, 2);
    let mut at = 8;
    loop {
        if let Some(stop) = stop_at(version, session, s, at) {
            return Heard {
                stop,
                over: at,
                sums,
            };
        }
        let size = size_at(s, at);
        sums = plus(sums, s, at);
        at += size;
    }
}
