// Runs of good ascending fields, passed over.
ghost use Rattle.std.specs.Prelude.{◌≡◌, ◌+◌, ◌-◌, ◌≤◌};
ghost use Rattle.field.specs.Places.{key_place};
ghost use Rattle.verdict.specs.Progress.{Judged, stand_behind, Reaches, Further};

use crate::origins::{next_words, three_at};
use body::tag::{Form, body_sound, kind_of};
use field::head::{Field, field_at};
use field::key::{Key, key_at};
use number::four_at;

// Where a check stands: the next field's offset, and the key of the field before it.
#[derive(Clone, Copy)]
pub struct Stand {
    pub at: usize,
    pub before: Key,
}

// Behind a field of this kind, with the body from `from` up to `to`.
fn behind(kind: u8, from: usize, to: usize) -> Stand
    ensures { result ≡ stand_behind kind from to }
{
    let before = key_at(kind, from, to);
    Stand { at: to, before }
}

// Behind an origin that ends at `start`, past the good ascending origins but the last. The words of a field are read one
// turn before they are judged: judged in the same turn they would be read byte by byte. It is not inlined, since the values of
// `check` would take registers from the loop.
#[inline(never)]
fn pass_origins(form: Form, s: &[u8], start: usize) -> Stand
    requires { (26 ≤ start) × Judged form s.now start (key_place 1 (start - 23) start) }
    ensures { Further form s.now start result }
{
    if s.len() - start < 26 {
        return behind(1, start - 23, start);
    }
    let mut before = three_at(s, start - 26);
    let mut field = three_at(s, start);
    let mut at = start;
    while 52 <= s.len() - at {
        if !next_words(form, s, at, before, field) {
            return behind(1, at - 23, at);
        }
        before = field;
        at += 26;
        field = three_at(s, at);
    }
    behind(1, at - 23, at)
}

// Where the field at `at` ends, if it is a good one of this kind that makes sense; else `at`.
// Kept: `at` for none, so that one test in the loop also keeps four bytes of the next body within the slice.
fn good_end(form: Form, kind: u8, s: &[u8], at: usize) -> usize
    ensures { Reaches form kind s.now at result }
{
    match field_at(s, at) {
        Field::End => at,
        Field::Cut => at,
        Field::Whole { tag, from, to } => {
            if kind_of(form, tag) != kind {
                return at;
            }
            if !body_sound(form, tag, &s[from..to]) {
                return at;
            }
            to
        }
    }
}

// Behind a field of this kind, past the good ones of its kind, as long as the first four bytes of each key are above
// those of the one before.
fn pass_kind(form: Form, s: &[u8], kind: u8, first: usize, start: usize) -> Stand
    requires { (first + 4 ≤ start) × Judged form s.now start (key_place kind first start) }
    ensures { Further form s.now start result }
{
    let mut from = first;
    let mut at = start;
    let mut front = four_at(s, first);
    while 7 <= s.len() - at {
        let next = four_at(s, at + 3);
        if next <= front {
            return behind(kind, from, at);
        }
        let to = good_end(form, kind, s, at);
        if to < at + 7 {
            return behind(kind, from, at);
        }
        from = at + 3;
        at = to;
        front = next;
    }
    behind(kind, from, at)
}

// Behind a field that ends at `at`, past good fields that surely ascend. What it does not approve of it leaves.
pub(crate) fn pass(form: Form, s: &[u8], at: usize, before: Key) -> Stand
    requires { Judged form s.now at before }
    ensures { Further form s.now at result }
{
    let kind = before.kind;
    let from = before.from;
    let key = key_at(kind, from, at);
    if before.to != key.to {
        return Stand { at, before };
    }
    if at < 26 {
        return Stand { at, before };
    }
    if at - 4 < from {
        return Stand { at, before };
    }
    if kind != 1 {
        return pass_kind(form, s, kind, from, at);
    }
    if from != at - 23 {
        return Stand { at, before };
    }
    pass_origins(form, s, at)
}
