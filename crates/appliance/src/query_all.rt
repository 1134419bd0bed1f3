// The queries of a whole appliance.
ghost use Rattle.std.specs.Prelude.{◌≡◌, ◌+◌, ◌≤◌, ◌<◌, min, length};
ghost use Rattle.serial.specs.Serial.{distance_of};
ghost use Rattle.number.specs.Number.{two_at, four_at};
ghost use Rattle.appliance.specs.QueryAll.{good_list, list_admitted, no_reply, refused_call, query_all_of, query_all_out};

use crate::reply::{Replied, Reply};
use crate::router_turn::{Known, reply_to};
use delta::refusal::Refusal;
use history::well_formed::well_formed;
use number::two_at;
use past::state::History;
use serial::{Serial, Session, distance, session16};

// A reply of zeros.
fn no_reply() -> Reply
    ensures { result ≡ no_reply }
{
    Reply {
        kind: 0,
        number: 0,
        offset: 0,
        length: 0,
        announced: 0,
        withdrawn: 0,
    }
}

// A refused call: all else 0.
fn refused(refusal: Refusal) -> Replied
    ensures { result ≡ refused_call refusal }
{
    let none = no_reply();
    let replies = [none; 384];
    Replied {
        admitted: Err(refusal),
        session: Session(0),
        serial: Serial(0),
        used: 0,
        count: 0,
        replies,
    }
}

// Whether a list has at most 384 queries, none of them cut.
fn good_list(queries: &[u8]) -> bool
    ensures { result ≡ good_list queries.now }
{
    queries.len() <= 2304 && queries.len() % 6 == 0
}

// Refusals 7 and 11.
fn admit_list(
    history: History,
    snapshots: &[u8],
    deltas: &[u8],
    queries: &[u8],
) -> Result<(), Refusal>
    ensures { result ≡ list_admitted history snapshots.now deltas.now queries.now }
{
    if !well_formed(history, snapshots, deltas) {
        return Err(Refusal::IllFormed);
    }
    if !good_list(queries) {
        return Err(Refusal::BadList);
    }
    Ok(())
}

// The session at i.
fn session_at(s: &[u8], i: usize) -> Session
    ensures { result ≡ record { 0 = two_at s.now i } }
{
    let n = two_at(s, i);
    Session(n as u16)
}

// The serial at i.
fn serial_at(s: &[u8], i: usize) -> Serial
    requires { i + 4 ≤ length s.now }
    ensures { (result ≡ record { 0 = four_at s.now i }) × (result.0 < 4294967296) }
{
    let high = two_at(s, i);
    let low = two_at(s, i + 2);
    let n = high * 65536 + low;
    Serial(n as u32)
}

// How many steps before the newest a serial is, or 64: no served one is further.
fn steps(newest: Serial, asked: Serial) -> u32
    ensures { result ≡ min (distance_of newest asked) 64 }
{
    distance(newest, asked).min(64)
}

// Each query of the list as if asked alone, with the output still unused.
pub fn query_all(
    history: History,
    snapshots: &[u8],
    deltas: &[u8],
    queries: &[u8],
    out: &mut [u8],
) -> Replied
    ensures { (result ≡ query_all_of history snapshots.now deltas.now queries.now out.old) × (out.new ≡ query_all_out history snapshots.now deltas.now queries.now out.old) }
{
    if let Err(refusal) = admit_list(history, snapshots, deltas, queries) {
        return refused(refusal);
    }
    let none = no_reply();
    let newest = history.newest;
    let count = queries.len() / 6;
    let mut replies = [none; 384];
    let mut table = [Known::Nothing; 65];
    let mut used = 0;
    for k in 0..count {
        let session = session_at(queries, 6 * k);
        let asked = serial_at(queries, 6 * k + 2);
        let d = steps(newest, asked);
        let i = d as usize;
        let t = reply_to(history, session, asked, d, deltas, table[i], used, out);
        table[i] = t.known;
        replies[k] = t.reply;
        used = t.used;
    }
    let session = session16(history.session);
    Replied {
        admitted: Ok(()),
        session,
        serial: newest,
        used,
        count: count as u32,
        replies,
    }
}
