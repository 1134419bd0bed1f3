// Message order: by the record, and for one record by the offset.
ghost use Rattle.std.specs.Prelude.{◌≡◌};
ghost use Rattle.order.specs.Comparison.{bytes};
ghost use Rattle.change.specs.Application.{is_equal};
ghost use Rattle.number.specs.Number.{word_at};
ghost use Rattle.heard.specs.Place.{key_at, precedes, Payload};
ghost use Rattle.heard.specs.Compare.{Of, Alike, Fronted, FrontOf};

use crate::front::{front_at, middle_at};
use crate::place::{size_at, type_at};
use number::compare::compare;
use number::word_at;
use std::cmp::Ordering;

// The last eight bytes of an IPv4 prefix's record: two zeros, the lengths, the AS number.
fn four_last(s: &[u8], at: usize) -> usize
    requires { Of s.now 4 at }
    ensures { result ≡ word_at (key_at s.now at) 16 }
{
    let lengths = word_at(s, at + 8) / 1099511627776 % 65536;
    lengths * 4294967296 + word_at(s, at + 12) % 4294967296
}

// The last eight bytes of an IPv6 prefix's record: the end of the address, the lengths, the AS number.
fn six_last(s: &[u8], at: usize) -> usize
    requires { Of s.now 6 at }
    ensures { result ≡ word_at (key_at s.now at) 16 }
{
    let lengths = word_at(s, at + 8) / 1099511627776 % 65536;
    let last = word_at(s, at + 24);
    (last / 4294967296 % 65536 * 65536 + lengths) * 4294967296 + last % 4294967296
}

// Two router keys.
fn compare_keys(s: &[u8], x: usize, y: usize) -> Ordering
    requires { Alike s.now 9 x y }
    ensures { result ≡ bytes (key_at s.now x) (key_at s.now y) }
{
    let x_end = x + size_at(s, x);
    let y_end = y + size_at(s, y);
    let x_from = x + 8;
    let y_from = y + 8;
    compare(&s[x_from..x_end], &s[y_from..y_end])
}

// Two IPv6 prefixes of the same front.
#[inline(always)]
fn compare_six(s: &[u8], x: usize, y: usize) -> Ordering
    requires { Alike s.now 6 x y }
    ensures { result ≡ bytes (key_at s.now x) (key_at s.now y) }
{
    match middle_at(s, x).cmp(&middle_at(s, y)) {
        Ordering::Less => Ordering::Less,
        Ordering::Equal => six_last(s, x).cmp(&six_last(s, y)),
        Ordering::Greater => Ordering::Greater,
    }
}

// Two records of the same front.
#[inline(always)]
fn compare_behind(s: &[u8], x: usize, y: usize) -> Ordering
    requires { Fronted s.now x y }
    ensures { result ≡ bytes (key_at s.now x) (key_at s.now y) }
{
    match type_at(s, x) {
        4 => four_last(s, x).cmp(&four_last(s, y)),
        6 => compare_six(s, x, y),
        _ => compare_keys(s, x, y),
    }
}

// Whether the message at x stands before the one at y, where their fronts are the same. Apart from `is_before_by`, so that
// what compares the fronts is small enough to be inlined where messages are sorted.
#[inline(never)]
fn is_before_behind(s: &[u8], x: usize, y: usize) -> bool
    requires { Fronted s.now x y }
    ensures { result ≡ precedes s.now x y }
{
    match compare_behind(s, x, y) {
        Ordering::Less => true,
        Ordering::Equal => x < y,
        Ordering::Greater => false,
    }
}

// Whether the message at x, with the front p, stands before the one at y, with the front q.
pub fn is_before_by(s: &[u8], p: usize, x: usize, q: usize, y: usize) -> bool
    requires { FrontOf s.now p x × FrontOf s.now q y }
    ensures { result ≡ precedes s.now x y }
{
    if p < q {
        return true;
    }
    if q < p {
        return false;
    }
    is_before_behind(s, x, y)
}

// Whether the message at x stands before the one at y.
pub fn is_before(s: &[u8], x: usize, y: usize) -> bool
    requires { Payload s.now x × Payload s.now y }
    ensures { result ≡ precedes s.now x y }
{
    is_before_by(s, front_at(s, x), x, front_at(s, y), y)
}

// Whether two messages are of the same record.
pub fn same_record(s: &[u8], x: usize, y: usize) -> bool
    requires { Payload s.now x × Payload s.now y }
    ensures { result ≡ is_equal (bytes (key_at s.now x) (key_at s.now y)) }
{
    if front_at(s, x) != front_at(s, y) {
        return false;
    }
    compare_behind(s, x, y).is_eq()
}
