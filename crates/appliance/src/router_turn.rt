// One query: what is known of the answer at its distance is used, else the deltas are walked.
ghost use Rattle.std.specs.Prelude.{◌≡◌, length};
ghost use Rattle.past.specs.Store.{held_deltas};
ghost use Rattle.past.specs.Query.{ask_admitted, merged_last};
ghost use Rattle.appliance.specs.declared.router_turn.Known.TheVariants.{Nothing};
ghost use Rattle.appliance.specs.Turn.{refused_turn, shared_turn, shared_out, Shares, Takes, TurnIs};

use crate::repeat::repeat;
use crate::reply::{Reply, refused_with, served_at};
use delta::refusal::Refusal;
use history::query::{asks, serve};
use item::sink::Counts;
use past::state::History;
use serial::{Serial, Session};

// What is known of the answer to those that are d steps behind.
// Kept: three answers; an `Option` of a `Result` would say no more.
#[derive(Clone, Copy)]
pub enum Known {
    Nothing,
    // It is longer than the output still unused, which only shrinks.
    Long,
    // It stands in the output.
    Stands { at: usize, counts: Counts },
}

// What is known after a query, its reply, and how much of the output is used.
#[derive(Clone, Copy)]
pub struct Turn {
    pub known: Known,
    pub reply: Reply,
    pub used: usize,
}

// A refused query uses nothing.
fn refuse(refusal: Refusal, known: Known, used: usize) -> Turn
    ensures { result ≡ refused_turn refusal known used }
{
    let reply = refused_with(refusal);
    Turn { known, reply, used }
}

// The last d deltas merged, behind what is used.
fn walk(history: History, d: u32, deltas: &[u8], used: usize, out: &mut [u8]) -> Turn
    requires { Takes (Ok tt) history d deltas.now Nothing used out.old }
    ensures { TurnIs (Ok tt) history (merged_last d (held_deltas history deltas.now)) used out.old result out.new }
{
    let queried = serve(history, d, deltas, &mut out[used..]);
    let Ok(counts) = queried.answer else {
        return refuse(Refusal::NoRoom, Known::Long, used);
    };
    let len = counts.len;
    let reply = served_at(used, counts);
    let known = Known::Stands { at: used, counts };
    Turn {
        known,
        reply,
        used: used + len,
    }
}

// The answer that stands at `at` once more, behind what is used.
fn share(at: usize, counts: Counts, used: usize, out: &mut [u8]) -> Turn
    requires { Shares at counts used out.old }
    ensures { (result ≡ shared_turn at counts used (length out.old)) × (out.new ≡ shared_out at counts used out.old) }
{
    let len = counts.len;
    let known = Known::Stands { at, counts };
    if out.len() - used < len {
        return refuse(Refusal::NoRoom, known, used);
    }
    repeat(out, at, used, len);
    let reply = served_at(used, counts);
    Turn {
        known,
        reply,
        used: used + len,
    }
}

// The answer to a query that is d steps behind.
fn answer(
    history: History,
    d: u32,
    deltas: &[u8],
    known: Known,
    used: usize,
    out: &mut [u8],
) -> Turn
    requires { Takes (Ok tt) history d deltas.now known used out.old }
    ensures { TurnIs (Ok tt) history (merged_last d (held_deltas history deltas.now)) used out.old result out.new }
{
    match known {
        Known::Nothing => walk(history, d, deltas, used, out),
        Known::Long => refuse(Refusal::NoRoom, known, used),
        Known::Stands { at, counts } => share(at, counts, used, out),
    }
}

// A query: 5, 6, or the answer.
pub(crate) fn reply_to(
    history: History,
    session: Session,
    asked: Serial,
    d: u32,
    deltas: &[u8],
    known: Known,
    used: usize,
    out: &mut [u8],
) -> Turn
    requires { Takes (ask_admitted history session asked) history d deltas.now known used out.old }
    ensures { TurnIs (ask_admitted history session asked) history (merged_last d (held_deltas history deltas.now)) used out.old result out.new }
{
    if let Err(refusal) = asks(history, session, asked) {
        return refuse(refusal, known, used);
    }
    answer(history, d, deltas, known, used, out)
}
