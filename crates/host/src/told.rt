// What the calls on a history hand back.
ghost use Rattle.std.specs.Prelude.{◌≡◌};
ghost use Rattle.host.specs.Told.{flat_creation, made_created, flat_update, state_after, made_updated, flat_query, told_queried, flat_full, told_full, flat_list, flat_replied};

use crate::answer::{Answer, of_length, refused_as, wrote_as};
use crate::state::{State, state_of};
use appliance::reply::{Replied, Reply};
use delta::refusal::Refusal;
use item::sink::Counts;
use past::create::Created;
use past::full::Full;
use past::query::Queried;
use past::update::{Update, Updated};
use serial::{Serial, Session};

// Of creation and update.
#[repr(C)]
#[derive(Clone, Copy)]
pub struct Made {
    pub answer: Answer,
    pub state: State,
}

// Of a query and the full answer.
#[repr(C)]
#[derive(Clone, Copy)]
pub struct Told {
    pub session: Session,
    pub answer: Answer,
}

fn creation_as(c: Result<(), Refusal>, start: Serial) -> Answer
    ensures { result ≡ flat_creation c start }
{
    match c {
        Ok(()) => wrote_as(1, start, of_length(0)),
        Err(r) => refused_as(r),
    }
}

pub fn created_as(c: Created) -> Made
    ensures { result ≡ made_created c }
{
    Made {
        answer: creation_as(c.answer, c.history.start),
        state: state_of(c.history),
    }
}

fn update_as(u: Result<Update, Refusal>, newest: Serial) -> Answer
    ensures { result ≡ flat_update u newest }
{
    match u {
        Ok(Update::First) => wrote_as(1, newest, of_length(0)),
        Ok(Update::Unchanged) => wrote_as(2, newest, of_length(0)),
        Ok(Update::Changed(counts)) => wrote_as(3, newest, counts),
        Err(r) => refused_as(r),
    }
}

// The new state, or the one that was given.
fn state_after(u: Result<Update, Refusal>, given: State, updated: Updated) -> State
    ensures { result ≡ state_after u given updated }
{
    match u {
        Ok(Update::First) | Ok(Update::Changed(_)) => state_of(updated.history),
        Ok(Update::Unchanged) | Err(_) => given,
    }
}

pub fn updated_as(given: State, updated: Updated) -> Made
    ensures { result ≡ made_updated given updated }
{
    Made {
        answer: update_as(updated.answer, updated.history.newest),
        state: state_after(updated.answer, given, updated),
    }
}

fn query_as(a: Result<Counts, Refusal>, serial: Serial) -> Answer
    ensures { result ≡ flat_query a serial }
{
    match a {
        Ok(counts) => wrote_as(1, serial, counts),
        Err(r) => refused_as(r),
    }
}

pub fn queried_as(q: Queried) -> Told
    ensures { result ≡ told_queried q }
{
    Told {
        session: q.session,
        answer: query_as(q.answer, q.serial),
    }
}

fn full_as(a: Result<usize, Refusal>, serial: Serial) -> Answer
    ensures { result ≡ flat_full a serial }
{
    match a {
        Ok(len) => wrote_as(1, serial, of_length(len)),
        Err(r) => refused_as(r),
    }
}

pub fn told_full(f: Full) -> Told
    ensures { result ≡ told_full f }
{
    Told {
        session: f.session,
        answer: full_as(f.answer, f.serial),
    }
}

// Of the queries of an appliance.
#[repr(C)]
#[derive(Drop)]
pub struct Replies {
    pub answer: Answer,
    pub session: Session,
    pub count: u32,
    pub replies: [Reply; 384],
}

fn list_as(a: Result<(), Refusal>, serial: Serial, used: usize) -> Answer
    ensures { result ≡ flat_list a serial used }
{
    match a {
        Ok(()) => wrote_as(1, serial, of_length(used)),
        Err(r) => refused_as(r),
    }
}

pub fn replied_as(r: Replied) -> Replies
    ensures { result ≡ flat_replied r }
{
    let replies = r.replies;
    Replies {
        answer: list_as(r.admitted, r.serial, r.used),
        session: r.session,
        count: r.count,
        replies,
    }
}
