// Keys: what fields are matched and ordered by.
ghost use Rattle.std.specs.Prelude.{◌≡◌};
ghost use Rattle.order.specs.Comparison.{bytes};
ghost use Rattle.field.specs.Places.{key_in, key_place};

use number::compare::compare;
use std::cmp::Ordering;

// The place of a key: the number of its kind, and where its bytes lie.
// Kept: the kind is a number, since it is the first byte of a key (`key_in`) and keys are ordered by it; 0 stands below all.
#[derive(Clone, Copy)]
pub struct Key {
    pub kind: u8,
    pub from: usize,
    pub to: usize,
}

// The key of a field whose body lies from `from` up to `to`.
pub fn key_at(kind: u8, from: usize, to: usize) -> Key
    ensures { result ≡ key_place kind from to }
{
    if kind == 3 && from < to && 4 < to - from {
        return Key {
            kind,
            from,
            to: from + 4,
        };
    }
    Key { kind, from, to }
}

// How key x of a stands to key y of b. Of a place past the end only what lies within counts.
pub fn key_compare(a: &[u8], x: Key, b: &[u8], y: Key) -> Ordering
    ensures { result ≡ bytes (key_in a.now x) (key_in b.now y) }
{
    let p = x.kind;
    let q = y.kind;
    if p < q {
        return Ordering::Less;
    }
    if q < p {
        return Ordering::Greater;
    }
    let x_to = x.to.min(a.len());
    let x_from = x.from.min(x_to);
    let y_to = y.to.min(b.len());
    let y_from = y.from.min(y_to);
    compare(&a[x_from..x_to], &b[y_from..y_to])
}
