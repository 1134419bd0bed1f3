// An answer of another cache, judged.
ghost use Rattle.std.specs.Prelude.{◌≡◌, ◌+◌, ◌-◌, ◌≤◌, length};
ghost use Rattle.delta.specs.Answer.{out_after};
ghost use Rattle.heard.specs.Place.{Payload, told_at};
ghost use Rattle.judge.specs.Answer.{misfit_as, judge_of, judge_out};
ghost use Rattle.judge.specs.State.{Balanced, Heeds, left_all, length_of};

use crate::least::least_fault;
use crate::put::put;
use batch::map::{Chunk, Map};
use batch::survey::survey;
use body::tag::Form;
use delta::admit::admit_one;
use delta::refusal::Refusal;
use heard::hear::{Heard, hear};
use heard::place::announces;
use item::sink::Counts;
use message::version::Version;
use serial::timing::Timing;
use serial::{Serial, Session};

// What is accepted: the session, the serial and the times of the End of Data, and what was written.
#[derive(Clone, Copy)]
pub struct Accepted {
    pub session: Session,
    pub serial: Serial,
    pub times: Timing,
    pub counts: Counts,
}

// The refusal of the message at x, which does not fit.
fn misfit(s: &[u8], x: usize) -> Refusal
    requires { Payload s.now x }
    ensures { result ≡ misfit_as (told_at s.now x).change x }
{
    if announces(s, x) {
        return Refusal::Present { at: x };
    }
    Refusal::Absent { at: x }
}

// A length to which bytes come and from which bytes go, if there is room for it.
fn sized(len: usize, more: usize, less: usize, room: usize) -> Option<usize>
    requires { less ≤ len + more }
    ensures { result ≡ length_of (len + more - less) room }
{
    if more < less {
        let n = len - (less - more);
        if room < n {
            return None;
        }
        return Some(n);
    }
    if room < len {
        return None;
    }
    let come = more - less;
    if room - len < come {
        return None;
    }
    Some(len + come)
}

// What all messages leave, written, if there is room for it: its length.
fn put_all(
    snapshot: &[u8],
    s: &[u8],
    stop: usize,
    more: usize,
    less: usize,
    map: &Map,
    buf: &mut [usize; 6000],
    out: &mut [u8],
) -> Option<usize>
    requires { Balanced snapshot.now s.now stop more less map.now buf.old }
    ensures { (result ≡ length_of (length (left_all snapshot.now s.now stop)) (length out.old)) × (out.new ≡ out_after (Ok tt) (left_all snapshot.now s.now stop) out.old) }
{
    let Some(len) = sized(snapshot.len(), more, less, out.len()) else {
        return None;
    };
    put(snapshot, s, stop, map, buf, out);
    Some(len)
}

// What was heard of an answer, on a good snapshot.
fn judge_heard(
    version: Version,
    snapshot: &[u8],
    messages: &[u8],
    heard: Heard,
    map: &Map,
    buf: &mut [usize; 6000],
    out: &mut [u8],
) -> Result<Accepted, Refusal>
    requires { Heeds version snapshot.now messages.now heard map.now buf.old }
    ensures { (result ≡ judge_of version snapshot.now messages.now (length out.old)) × (out.new ≡ judge_out version snapshot.now messages.now out.old) }
{
    let over = heard.over;
    let least = least_fault(snapshot, messages, over, map, buf);
    if least < over {
        return Err(misfit(messages, least));
    }
    let end = match heard.stop {
        Err(fault) => return Err(Refusal::Faulty { at: fault.at }),
        Ok(end) => end,
    };
    let sums = heard.sums;
    let Some(len) = put_all(
        snapshot, messages, over, sums.more, sums.less, map, buf, out,
    ) else {
        return Err(Refusal::NoRoom);
    };
    Ok(Accepted {
        session: end.session,
        serial: end.serial,
        times: end.times,
        counts: Counts {
            len,
            announced: sums.announced,
            withdrawn: sums.withdrawn,
        },
    })
}

// An answer of messages on a snapshot, and the snapshot that it leaves.
pub fn judge(
    version: Version,
    snapshot: &[u8],
    messages: &[u8],
    out: &mut [u8],
) -> Result<Accepted, Refusal>
    ensures { (result ≡ judge_of version snapshot.now messages.now (length out.old)) × (out.new ≡ judge_out version snapshot.now messages.now out.old) }
{
    admit_one(Form::Snapshot, snapshot)?;
    let heard = hear(version, messages);
    let none = Chunk {
        from: 0,
        mid: 0,
        over: 0,
        least: 0,
        most: 0,
    };
    let mut map = Map {
        chunks: [none; 112],
        hints: [0; 960],
        held: 0,
        step: 0,
    };
    let mut buf = [0usize; 6000];
    let count = heard.sums.announced + heard.sums.withdrawn;
    survey(messages, heard.over, count, &mut map, &mut buf);
    judge_heard(version, snapshot, messages, heard, &map, &mut buf, out)
}
