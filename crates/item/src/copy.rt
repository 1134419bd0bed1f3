// Copying into a lent slice: eight bytes at a time, the rest singly.
ghost use Rattle.std.specs.Prelude.{◌≡◌, ◌+◌, ◌≤◌, ◌<◌, length, take, drop, set};
ghost use Rattle.std.proofs.lemmas.List.Edits.{sets};
ghost use Rattle.number.specs.Number.{two_bytes, four_bytes, word_bytes};
ghost use Rattle.item.specs.Place.{Lies, part_in};
ghost use Rattle.item.specs.Copy.{Spans};

use crate::place::Part;
use number::word_at;

// A byte at i.
pub fn store(out: &mut [u8], i: usize, x: u8)
    requires { i < length out.old }
    ensures { out.new ≡ set out.old i x }
{
    out[i] = x;
}

// The two bytes of a number at i, the highest first.
pub fn store_two(out: &mut [u8], i: usize, n: usize)
    requires { (i + 2 ≤ length out.old) × (n < 65536) }
    ensures { out.new ≡ sets out.old i (two_bytes n) }
{
    store(out, i, (n / 256) as u8);
    store(out, i + 1, (n % 256) as u8);
}

// The four bytes of a number at i, the highest first.
pub fn store_four(out: &mut [u8], i: usize, n: usize)
    requires { (i + 4 ≤ length out.old) × (n < 4294967296) }
    ensures { out.new ≡ sets out.old i (four_bytes n) }
{
    store_two(out, i, n / 65536);
    store_two(out, i + 2, n % 65536);
}

// The eight bytes of a number at i, the highest first. Made of halves it is compiled to one store.
pub fn store_word(out: &mut [u8], i: usize, w: usize)
    requires { i + 8 ≤ length out.old }
    ensures { out.new ≡ sets out.old i (word_bytes w) }
{
    store_four(out, i, w / 4294967296);
    store_four(out, i + 4, w % 4294967296);
}

// Eight bytes of s at `from` go to i.
fn copy_eight(s: &[u8], from: usize, out: &mut [u8], i: usize)
    requires { Spans s.now from out.old i 8 }
    ensures { out.new ≡ sets out.old i (take 8 (drop from s.now)) }
{
    store_word(out, i, word_at(s, from));
}

// Of the n bytes of s at `from`, as many as are eights go to i: how many bytes that is.
// Kept: eight bytes a turn; a field has 26, for which a call of memcpy is dear.
fn copy_eights(s: &[u8], from: usize, out: &mut [u8], i: usize, n: usize) -> usize
    requires { Spans s.now from out.old i n }
    ensures { (result ≤ n) × (out.new ≡ sets out.old i (take result (drop from s.now))) }
{
    let mut k = 0;
    while 8 <= n - k {
        copy_eight(s, from + k, out, i + k);
        k += 8;
    }
    k
}

// The n bytes of s at `from` go to i, one at a time.
fn copy_bytes(s: &[u8], from: usize, out: &mut [u8], i: usize, n: usize)
    requires { Spans s.now from out.old i n }
    ensures { out.new ≡ sets out.old i (take n (drop from s.now)) }
{
    for k in 0..n {
        out[i + k] = s[from + k];
    }
}

// A part of s at i, as far as there is room.
pub fn copy(s: &[u8], p: Part, out: &mut [u8], i: usize)
    requires { Lies s.now p }
    ensures { out.new ≡ sets out.old i (part_in s.now p) }
{
    if out.len() <= i {
        return;
    }
    let from = p.from;
    let n = (p.to - from).min(out.len() - i);
    let k = copy_eights(s, from, out, i, n);
    copy_bytes(s, from + k, out, i + k, n - k);
}
