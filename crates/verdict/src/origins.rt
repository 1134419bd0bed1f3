// The field of an origin, judged by its words.
ghost use Rattle.std.specs.Prelude.{◌≡◌, true, ◌+◌, ◌-◌, ◌≤◌, ◌<◌, length};
ghost use Rattle.field.specs.Words.{words_at};
ghost use Rattle.field.specs.If.{If};
ghost use Rattle.verdict.specs.Origins.{heads_of, has_start, good_lengths, below_words, GoodField, NextWords, three_at, Neighbours};

use body::origin::clean_halves;
use body::tag::Form;
use field::words::Words;
use number::{pair_at, word_at};

// The heads that an origin can have: a tag and the length 23.
#[derive(Clone, Copy)]
pub struct Heads {
    pub one: usize,
    pub other: usize,
}

// The heads of the origins of a snapshot or of a delta.
fn heads_of(form: Form) -> Heads
    ensures { result ≡ heads_of form }
{
    match form {
        Form::Snapshot => Heads {
            one: 0x010017,
            other: 0x010017,
        },
        Form::Delta => Heads {
            one: 0x110017,
            other: 0x120017,
        },
    }
}

// Whether a field's first word starts with the head of an origin and this family: one number of four bytes.
fn starts(form: Form, first: usize, family: usize) -> bool
    requires { family < 256 }
    ensures { result ≡ has_start (heads_of form) family first }
{
    let heads = heads_of(form);
    let one = heads.one * 256 + family;
    let other = heads.other * 256 + family;
    let start = first / 4294967296;
    if start == one {
        return true;
    }
    start == other
}

// Whether lengths and address are those of an IPv4 origin. A no decides nothing. With a prefix of at most 32 bits
// nothing stands above it in the third word, and so the address is zero there.
fn four_ok(w: Words) -> bool
    ensures { If result (good_lengths 32 w ≡ true) }
{
    if w.second != 0 {
        return false;
    }
    let prefix = w.third / 16777216;
    let maximum = w.third / 65536 % 256;
    if maximum < prefix {
        return false;
    }
    if 32 < maximum {
        return false;
    }
    let high = w.first % 4294967296 * 4294967296;
    high << prefix == 0
}

// Whether lengths and address are those of an IPv6 origin.
fn six_ok(w: Words) -> bool
    ensures { result ≡ good_lengths 128 w }
{
    let prefix = w.third / 16777216 % 256;
    let maximum = w.third / 65536 % 256;
    if maximum < prefix {
        return false;
    }
    if 128 < maximum {
        return false;
    }
    let high = w.first % 4294967296 * 4294967296 + w.second / 4294967296;
    let low = w.second % 4294967296 * 4294967296 + w.third / 4294967296;
    clean_halves(prefix, high, low)
}

// Whether a field is a good origin's. A no decides nothing.
fn field_ok(form: Form, w: Words) -> bool
    ensures { If result (GoodField form w) }
{
    if starts(form, w.first, 4) {
        return four_ok(w);
    }
    if !starts(form, w.first, 6) {
        return false;
    }
    six_ok(w)
}

// The first three words of the field at `at`. Its last two bytes are read only where all three are those of another field.
pub(crate) fn three_at(s: &[u8], at: usize) -> Words
    requires { at + 26 ≤ length s.now }
    ensures { result ≡ three_at s.now at }
{
    Words {
        first: word_at(s, at),
        second: word_at(s, at + 8),
        third: word_at(s, at + 16),
        last: 0,
    }
}

// Whether the body at `at` stands above the one before it.
fn is_above(s: &[u8], at: usize, before: Words, field: Words) -> bool
    requires { Neighbours s.now at before field }
    ensures { result ≡ below_words (words_at s.now (at - 26)) (words_at s.now at) }
{
    let t = before.first % 1099511627776;
    let u = field.first % 1099511627776;
    if t < u {
        return true;
    }
    if u < t {
        return false;
    }
    let v = before.second;
    let w = field.second;
    if v < w {
        return true;
    }
    if w < v {
        return false;
    }
    let x = before.third;
    let y = field.third;
    if x < y {
        return true;
    }
    if y < x {
        return false;
    }
    pair_at(s, at - 2) < pair_at(s, at + 24)
}

// Whether the field at `at` is a good origin's, and above the one before it. A no decides nothing.
pub(crate) fn next_words(form: Form, s: &[u8], at: usize, before: Words, field: Words) -> bool
    requires { Neighbours s.now at before field }
    ensures { If result (NextWords form (words_at s.now (at - 26)) (words_at s.now at)) }
{
    if !field_ok(form, field) {
        return false;
    }
    is_above(s, at, before, field)
}
