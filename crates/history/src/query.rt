// The query of a serial.
ghost use Rattle.std.specs.Prelude.{◌≡◌, ◌≤◌, length};
ghost use Rattle.delta.specs.Answer.{out_after};
ghost use Rattle.past.specs.Store.{held_deltas};
ghost use Rattle.merged.specs.Place.{Stored};
ghost use Rattle.past.specs.Query.{is_served, is_session, ask_admitted, query_admitted, merged_last, refused_with, query_at, query_of, query_out};

use crate::well_formed::well_formed;
use delta::refusal::Refusal;
use merged::last::merged_last;
use past::query::Queried;
use past::state::History;
use serial::{Serial, Session, distance, session16};

// A refused query: other numbers 0.
fn refused(refusal: Refusal) -> Queried
    ensures { result ≡ refused_with refusal }
{
    Queried {
        session: Session(0),
        serial: Serial(0),
        answer: Err(refusal),
    }
}

// Whether the session is the history's modulo 65,536.
pub fn is_session(history: History, session: Session) -> bool
    ensures { result ≡ is_session history session }
{
    session.0 == session16(history.session).0
}

// Whether, with n deltas, a serial is served that is d steps before the newest.
pub fn is_served(start: Serial, n: u32, asked: Serial, d: u32) -> bool
    ensures { result ≡ is_served start n asked d }
{
    if n == 0 {
        return asked.0 == start.0;
    }
    d <= n
}

// Refusals 5 and 6.
pub fn asks(history: History, session: Session, asked: Serial) -> Result<(), Refusal>
    ensures { result ≡ ask_admitted history session asked }
{
    if !is_session(history, session) {
        return Err(Refusal::OtherSession);
    }
    if !is_served(
        history.start,
        history.n,
        asked,
        distance(history.newest, asked),
    ) {
        return Err(Refusal::NotServed);
    }
    Ok(())
}

// Refusal 7, then 5 and 6.
fn admit_query(
    history: History,
    session: Session,
    asked: Serial,
    snapshots: &[u8],
    deltas: &[u8],
) -> Result<(), Refusal>
    ensures { result ≡ query_admitted history session asked snapshots.now deltas.now }
{
    if !well_formed(history, snapshots, deltas) {
        return Err(Refusal::IllFormed);
    }
    asks(history, session, asked)
}

// The last d deltas of a history, merged.
pub fn serve(history: History, d: u32, deltas: &[u8], out: &mut [u8]) -> Queried
    requires { Stored deltas.now history.deltas history.n × (d ≤ history.n) }
    ensures { (result ≡ query_at (Ok tt) history (merged_last d (held_deltas history deltas.now)) (length out.old)) × (out.new ≡ out_after (Ok tt) (merged_last d (held_deltas history deltas.now)) out.old) }
{
    let lengths = history.deltas;
    let n = history.n as usize;
    let Some(counts) = merged_last(deltas, lengths, n, d as usize, out) else {
        return refused(Refusal::NoRoom);
    };
    Queried {
        session: session16(history.session),
        serial: history.newest,
        answer: Ok(counts),
    }
}

// What leads from the serial asked for to the newest: the deltas since, merged.
pub fn query(
    history: History,
    session: Session,
    asked: Serial,
    snapshots: &[u8],
    deltas: &[u8],
    out: &mut [u8],
) -> Queried
    ensures { (result ≡ query_of history session asked snapshots.now deltas.now (length out.old)) × (out.new ≡ query_out history session asked snapshots.now deltas.now out.old) }
{
    if let Err(refusal) = admit_query(history, session, asked, snapshots, deltas) {
        return refused(refusal);
    }
    serve(history, distance(history.newest, asked), deltas, out)
}
