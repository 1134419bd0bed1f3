// Walking the messages, with the least of those that are left in the buffer.
ghost use Rattle.std.specs.Prelude.{◌≡◌, ◌+◌, ◌<◌, ◌≤◌, length};
ghost use Rattle.heard.specs.Place.{Payload, size_at};
ghost use Rattle.heard.specs.Compare.{FrontOf};
ghost use Rattle.batch.specs.Next.{is_above};
ghost use Rattle.batch.specs.Map.{Mapped, ChunkIs, Stretch, Tops, Clears, Clear};
ghost use Rattle.batch.specs.Keep.{Bound, is_up_to, is_wanted, front_or, word_or, Sifted, Fronts, Trims, Trimmed, Meets, MeetsBehind, Passed, Takes, Taken, TakesTwo, TakenTwo, Told, WalkedTo, Collected};

use crate::map::{Chunk, Map};
use heard::compare::is_before_by;
use heard::front::{front_at, middle_at};
use heard::place::{size_at, type_at};
use sorting::sort::sort;
use std::num::wrapping_sub_usize;

#[derive(Clone, Copy)]
pub struct Part {
    // How many offsets the buffer holds.
    pub n: usize,
    // The last message that may be held; 0: all may.
    // Kept: `low` of `next` and the hints have 0 for none too, and a top comes from a hint.
    pub top: usize,
    // The fronts of those that may be held lie between these.
    pub least: usize,
    pub most: usize,
    // And the words behind the fronts between these, where all are IPv6 prefixes of one front.
    pub under: usize,
    pub over: usize,
}

// The front of a message; of none, this number.
fn front_or(s: &[u8], x: usize, none: usize) -> usize
    requires { Bound s.now x }
    ensures { result ≡ front_or s.now x none }
{
    if x == 0 {
        return none;
    }
    front_at(s, x)
}

// The word behind the front of an IPv6 prefix; of another message or none, this number.
fn word_or(s: &[u8], x: usize, none: usize) -> usize
    requires { Bound s.now x }
    ensures { result ≡ word_or s.now x none }
{
    if x == 0 {
        return none;
    }
    if type_at(s, x) != 6 {
        return none;
    }
    middle_at(s, x)
}

// n offsets are held, of messages behind `low` and not behind `top`.
fn part_of(s: &[u8], low: usize, n: usize, top: usize) -> Part
    requires { Bound s.now low × Bound s.now top }
    ensures { (result.n ≡ n) × (result.top ≡ top) × Fronts s.now low result }
{
    Part {
        n,
        top,
        least: front_or(s, low, 0),
        most: front_or(s, top, 18446744073709551615),
        under: word_or(s, low, 0),
        over: word_or(s, top, 18446744073709551615),
    }
}

// Whether a number may lie between two others: false only where it does not.
fn is_among(x: usize, least: usize, most: usize) -> bool
    ensures { Sifted x least most result }
{
    wrapping_sub_usize(x, least) <= wrapping_sub_usize(most, least)
}

// Whether a message is behind `low`.
fn is_above(s: &[u8], low: usize, least: usize, front: usize, at: usize) -> bool
    requires { Bound s.now low × (least ≡ front_or s.now low 0) × FrontOf s.now front at }
    ensures { result ≡ is_above s.now low at }
{
    if low == 0 {
        return true;
    }
    is_before_by(s, least, low, front, at)
}

// Whether a message is not behind `top`.
fn is_up_to(s: &[u8], top: usize, most: usize, front: usize, at: usize) -> bool
    requires { Bound s.now top × (most ≡ front_or s.now top 18446744073709551615) × FrontOf s.now front at }
    ensures { result ≡ is_up_to s.now top at }
{
    if top == 0 {
        return true;
    }
    !is_before_by(s, most, top, front, at)
}

// Whether a message is behind `low` and not behind the top.
fn is_wanted(s: &[u8], low: usize, p: Part, front: usize, at: usize) -> bool
    requires { Bound s.now low × Bound s.now p.top × Fronts s.now low p × FrontOf s.now front at }
    ensures { result ≡ is_wanted s.now low p.top at }
{
    if is_above(s, low, p.least, front, at) {
        return is_up_to(s, p.top, p.most, front, at);
    }
    false
}

// Of a full buffer the lower part stays, in order.
fn trim(s: &[u8], low: usize, buf: &mut [usize; 6000], p: Part) -> Part
    requires { Trims s.now low buf.old p }
    ensures { Trimmed s.now low buf.old p buf.new result }
{
    if p.n < 6000 {
        return p;
    }
    sort(s, &mut buf[..]);
    part_of(s, low, 4500, buf[4499])
}

// Whether a message is surely not to be held, by the word behind its front, where that is the front of all that may be held.
fn is_passed_behind(s: &[u8], low: usize, at: usize, p: Part) -> bool
    requires { MeetsBehind s.now low at p }
    ensures { Passed s.now low at p result }
{
    if type_at(s, at) == 6 {
        return !is_among(middle_at(s, at), p.under, p.over);
    }
    false
}

// Whether a message is surely not to be held, by its front: so are most.
fn is_passed(s: &[u8], low: usize, at: usize, p: Part) -> bool
    requires { Meets s.now low at p }
    ensures { Passed s.now low at p result }
{
    let front = front_at(s, at);
    if p.least == p.most {
        if front == p.least {
            return is_passed_behind(s, low, at, p);
        }
    }
    !is_among(front, p.least, p.most)
}

// A message is taken in, where it is to be held.
fn take_in(s: &[u8], low: usize, at: usize, buf: &mut [usize; 6000], p: Part) -> Part
    requires { Takes s.now low at buf.old p }
    ensures { Taken s.now low at buf.old p buf.new result }
{
    if is_wanted(s, low, p, front_at(s, at), at) {
        let n = p.n;
        buf[n] = at;
        return trim(s, low, buf, Part { n: n + 1, ..p });
    }
    p
}

// Two messages are taken in, one after the other.
fn take_two(s: &[u8], low: usize, a: usize, b: usize, buf: &mut [usize; 6000], p: Part) -> Part
    requires { TakesTwo s.now low a b buf.old p }
    ensures { TakenTwo s.now low a b buf.old p buf.new result }
{
    if is_passed(s, low, a, p) {
        if is_passed(s, low, b, p) {
            return p;
        }
    }
    let q = take_in(s, low, a, buf, p);
    take_in(s, low, b, buf, q)
}

// Where the message behind the one at `at` starts.
fn behind(s: &[u8], at: usize, over: usize) -> usize
    requires { Stretch s.now at over × (at < over) }
    ensures { (result ≡ at + size_at s.now at) × (at < result) }
{
    at + size_at(s, at)
}

// The messages from `from` to `over`.
fn walk(
    s: &[u8],
    stop: usize,
    from: usize,
    over: usize,
    low: usize,
    buf: &mut [usize; 6000],
    start: Part,
) -> Part
    requires { WalkedTo s.now stop low from buf.old start × Stretch s.now from over × (over ≤ stop) }
    ensures { WalkedTo s.now stop low over buf.new result }
{
    let mut p = start;
    let mut at = from;
    while at < over {
        let next = behind(s, at, over);
        if is_passed(s, low, at, p) {
            at = next;
            continue;
        }
        p = take_in(s, low, at, buf, p);
        at = next;
    }
    p
}

// The messages of a chunk, those of both halves in turns: two lengths are read at a time.
fn walk_halves(
    s: &[u8],
    stop: usize,
    chunk: Chunk,
    low: usize,
    buf: &mut [usize; 6000],
    start: Part,
) -> Part
    requires { WalkedTo s.now stop low chunk.from buf.old start × ChunkIs s.now stop chunk }
    ensures { WalkedTo s.now stop low chunk.over buf.new result }
{
    let mid = chunk.mid;
    let over = chunk.over;
    let mut p = start;
    let mut a = chunk.from;
    let mut b = mid;
    while a < mid {
        let x = behind(s, a, mid);
        if over <= b {
            p = take_in(s, low, a, buf, p);
            a = x;
            continue;
        }
        let y = behind(s, b, over);
        p = take_two(s, low, a, b, buf, p);
        a = x;
        b = y;
    }
    walk(s, stop, b, over, low, buf, p)
}

// Whether surely nothing of a chunk is to be held.
fn is_clear(s: &[u8], low: usize, p: Part, least: usize, most: usize) -> bool
    requires { Clears s.now low p least most }
    ensures { Clear s.now low p.top least most result }
{
    if is_above(s, low, p.least, front_at(s, most), most) {
        return !is_up_to(s, p.top, p.most, front_at(s, least), least);
    }
    true
}

// The messages of a chunk, where some may be to be held.
fn walk_chunk(
    s: &[u8],
    stop: usize,
    chunk: Chunk,
    low: usize,
    buf: &mut [usize; 6000],
    p: Part,
) -> Part
    requires { WalkedTo s.now stop low chunk.from buf.old p × ChunkIs s.now stop chunk }
    ensures { WalkedTo s.now stop low chunk.over buf.new result }
{
    if is_clear(s, low, p, chunk.least, chunk.most) {
        return p;
    }
    walk_halves(s, stop, chunk, low, buf, p)
}

// The least messages up to `stop` that are behind `low`, up to `first` where it is not 0.
pub(crate) fn collect(
    s: &[u8],
    stop: usize,
    low: usize,
    first: usize,
    map: &Map,
    buf: &mut [usize; 6000],
) -> Part
    requires { Told s.now stop low × Tops s.now stop low first × Mapped s.now stop map.now × (length buf.old ≡ 6000) }
    ensures { Collected s.now stop low buf.new result }
{
    let mut p = part_of(s, low, 0, first);
    let mut at = 8;
    for c in 0..112 {
        let chunk = map.chunks[c];
        if chunk.from != at {
            break;
        }
        p = walk_chunk(s, stop, chunk, low, buf, p);
        at = chunk.over;
    }
    walk(s, stop, at, stop, low, buf, p)
}
