// The query of a serial, answered with messages.
ghost use Rattle.std.specs.Prelude.{◌≡◌, ◌≤◌, ◌<◌, ◌+◌, ◌/◌, length};
ghost use Rattle.merged.specs.Place.{Stored, last_merged};
ghost use Rattle.message.specs.Version.{end_length};
ghost use Rattle.wire.specs.Answer.{frame_of, reset_plan, report_plan, data_plan, sent_at, out_at, query_plan};
ghost use Rattle.wire.specs.Put.{writing_of, answer_out, sent_of};

use crate::deltas::put_merged;
use crate::frame::{Frame, frame_of};
use crate::sent::{Reply, Sent, alone, refused};
use crate::tally::Tally;
use cursors::runs::Walk;
use delta::refusal::Refusal;
use history::query::{is_served, is_session};
use history::well_formed::well_formed;
use merged::lengths::sum_lengths;
use merged::place::place_all;
use message::version::{Version, end_length};
use past::state::History;
use pdu::fixed::{put_report, put_reset};
use serial::timing::Timing;
use serial::{Serial, Session, distance};

// At most so many bytes has the answer of that many bytes of fields: a message of 32 bytes stands for a field of 26.
pub(crate) fn most_of(version: Version, fields: usize) -> usize
    requires { fields ≤ 2200000000 }
    ensures { result ≡ 8 + (fields + fields / 4) + end_length version }
{
    8 + (fields + fields / 4) + end_length(version)
}

// The answer of data that was written, or not.
pub(crate) fn sent_of(frame: Frame, writing: Option<Tally>) -> Sent
    ensures { result ≡ sent_of frame writing }
{
    let Some(t) = writing else {
        return refused(Refusal::NoRoom);
    };
    Sent {
        session: frame.session,
        serial: frame.serial,
        reply: Ok(Reply::Data(t)),
    }
}

// A Cache Reset.
fn reset(version: Version, out: &mut [u8]) -> Sent
    ensures { (result ≡ sent_at (reset_plan version) (length out.old)) × (out.new ≡ out_at (reset_plan version) out.old) }
{
    if out.len() < 8 {
        return refused(Refusal::NoRoom);
    }
    put_reset(version, out, 0);
    alone(Ok(Reply::Reset(8)))
}

// An Error Report, of another session.
fn report(version: Version, session: Session, asked: Serial, out: &mut [u8]) -> Sent
    ensures { (result ≡ sent_at (report_plan version session asked) (length out.old)) × (out.new ≡ out_at (report_plan version session asked) out.old) }
{
    if out.len() < 28 {
        return refused(Refusal::NoRoom);
    }
    put_report(version, session, asked, out, 0);
    alone(Ok(Reply::Report(28)))
}

// The last d of the n deltas of these lengths, merged.
fn put_last(
    version: Version,
    frame: Frame,
    store: &[u8],
    lengths: [u32; 64],
    n: usize,
    d: usize,
    out: &mut [u8],
) -> Option<Tally>
    requires { Stored store.now lengths n × (d ≤ n) }
    ensures { (result ≡ writing_of version frame (last_merged store.now lengths n d) (length out.old)) × (out.new ≡ answer_out version frame (last_merged store.now lengths n d) out.old) }
{
    let places = place_all(lengths, n);
    let most = most_of(version, sum_lengths(lengths, n - d, n));
    let mut walk = Walk::new(store, &places.at, &places.ends, n - d, n);
    put_merged(version, frame, &mut walk, most, out)
}

// The last d deltas of a history.
fn serve(
    version: Version,
    history: History,
    d: u32,
    times: Timing,
    deltas: &[u8],
    out: &mut [u8],
) -> Sent
    requires { Stored deltas.now history.deltas history.n × (d ≤ history.n) }
    ensures { (result ≡ sent_at (data_plan version (frame_of history times) (last_merged deltas.now history.deltas history.n d)) (length out.old)) × (out.new ≡ out_at (data_plan version (frame_of history times) (last_merged deltas.now history.deltas history.n d)) out.old) }
{
    let lengths = history.deltas;
    let n = history.n as usize;
    let frame = frame_of(history, times);
    let writing = put_last(version, frame, deltas, lengths, n, d as usize, out);
    sent_of(frame, writing)
}

// The messages that lead from the serial asked for to the newest; a Cache Reset, or an Error Report.
pub fn query_messages(
    version: Version,
    history: History,
    session: Session,
    asked: Serial,
    times: Timing,
    snapshots: &[u8],
    deltas: &[u8],
    out: &mut [u8],
) -> Sent
    ensures { (result ≡ sent_at (query_plan version history session asked times snapshots.now deltas.now) (length out.old)) × (out.new ≡ out_at (query_plan version history session asked times snapshots.now deltas.now) out.old) }
{
    if !well_formed(history, snapshots, deltas) {
        return refused(Refusal::IllFormed);
    }
    if !is_session(history, session) {
        return report(version, session, asked, out);
    }
    let d = distance(history.newest, asked);
    if !is_served(history.start, history.n, asked, d) {
        return reset(version, out);
    }
    serve(version, history, d, times, deltas, out)
}
