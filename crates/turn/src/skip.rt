// The run of fields that two snapshots have in common: it is no part of their difference.
ghost use Rattle.std.specs.Prelude.{◌+◌, ◌≤◌, length};
ghost use Rattle.field.specs.If.{If};
ghost use Rattle.item.specs.Reading.{Ready};
ghost use Rattle.turn.specs.Skip.{SameAt, Agrees, Common, Skips};

use item::reading::{Reading, Run};
use number::{two_at, word_at};

// Whether eight bytes are equal.
fn same_eight(a: &[u8], i: usize, b: &[u8], j: usize) -> bool
    requires { (i + 8 ≤ length a.now) × (j + 8 ≤ length b.now) }
    ensures { If result (SameAt a.now i b.now j 8) }
{
    let x = word_at(a, i);
    let y = word_at(b, j);
    x == y
}

// How many bytes of a from i on and of b from j on are equal, in eights.
// Kept: eight bytes a turn.
fn agree(a: &[u8], i: usize, b: &[u8], j: usize) -> usize
    requires { (i ≤ length a.now) × (j ≤ length b.now) }
    ensures { Agrees a.now i b.now j result }
{
    let n = (a.len() - i).min(b.len() - j);
    let mut k = 0;
    while 8 <= n - k {
        if !same_eight(a, i + k, b, j + k) {
            return k;
        }
        k += 8;
    }
    k
}

// How many of the m bytes that both have are whole fields. An origin has 26 bytes.
fn whole(a: &[u8], i: usize, b: &[u8], j: usize, m: usize) -> usize
    requires { Common a.now i b.now j m }
    ensures { Skips Reading.Withdrawn a.now i Reading.Announced b.now j result }
{
    let mut k = 0;
    while 26 <= m - k {
        let at = i + k;
        if a[at] == 1 {
            k += 26;
        } else {
            let n = two_at(a, at + 1) + 3;
            if m - k < n {
                return k;
            }
            k += n;
        }
    }
    k
}

// How far both sides can be passed over at once: only a difference of snapshots is.
pub fn skip(a: Run, i: usize, b: Run, j: usize) -> usize
    requires { Ready a.reading a.bytes.now i × Ready b.reading b.bytes.now j }
    ensures { Skips a.entry.reading a.entry.bytes.now i b.entry.reading b.entry.bytes.now j result }
{
    let Reading::Withdrawn = a.reading else {
        return 0;
    };
    let Reading::Announced = b.reading else {
        return 0;
    };
    let m = agree(a.bytes, i, b.bytes, j);
    whole(a.bytes, i, b.bytes, j, m)
}
