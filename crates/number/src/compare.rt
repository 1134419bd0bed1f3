// The order of byte strings.
ghost use Rattle.std.specs.Prelude.{◌≡◌};
ghost use Rattle.order.specs.Comparison.{bytes};

use crate::word_at;
use std::cmp::Ordering;

// How `a` stands to `b`: byte by byte, a proper prefix first. Eight bytes at a time, and the rest singly.
// Kept: eight bytes a turn; `a.cmp(b)` of std takes them by groups of its own, with more tests on the short keys of fields.
pub fn compare(a: &[u8], b: &[u8]) -> Ordering
    ensures { result ≡ bytes a.now b.now }
{
    let n = a.len().min(b.len());
    let mut i = 0;
    while 8 <= n - i {
        let x = word_at(a, i);
        let y = word_at(b, i);
        if x < y {
            return Ordering::Less;
        }
        if y < x {
            return Ordering::Greater;
        }
        i += 8;
    }
    let (x, y) = (&a[i..], &b[i..]);
    x.cmp(&y)
}
