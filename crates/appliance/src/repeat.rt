// Bytes of a lent slice once more, further up in it: eight at a time, the rest singly.
ghost use Rattle.std.specs.Prelude.{◌≡◌, ◌≤◌, take, drop};
ghost use Rattle.std.proofs.lemmas.List.Edits.{sets};
ghost use Rattle.appliance.specs.Turn.{Apart};

use item::copy::store_word;
use number::word_at;

// Eight bytes at `from` go to i.
fn repeat_eight(out: &mut [u8], from: usize, i: usize)
    requires { Apart out.old from i 8 }
    ensures { out.new ≡ sets out.old i (take 8 (drop from out.old)) }
{
    let w = word_at(out, from);
    store_word(out, i, w);
}

// Of the n bytes at `from`, as many as are eights go to i: how many bytes that is.
// Kept: as `copy_eights`, within one slice: two lent slices cannot be the same.
fn repeat_eights(out: &mut [u8], from: usize, i: usize, n: usize) -> usize
    requires { Apart out.old from i n }
    ensures { (result ≤ n) × (out.new ≡ sets out.old i (take result (drop from out.old))) }
{
    let mut k = 0;
    while 8 <= n - k {
        repeat_eight(out, from + k, i + k);
        k += 8;
    }
    k
}

// The n bytes at `from` go to i, one at a time.
fn repeat_bytes(out: &mut [u8], from: usize, i: usize, n: usize)
    requires { Apart out.old from i n }
    ensures { out.new ≡ sets out.old i (take n (drop from out.old)) }
{
    for k in 0..n {
        out[i + k] = out[from + k];
    }
}

// The n bytes at `from` go to i.
pub(crate) fn repeat(out: &mut [u8], from: usize, i: usize, n: usize)
    requires { Apart out.old from i n }
    ensures { out.new ≡ sets out.old i (take n (drop from out.old)) }
{
    let k = repeat_eights(out, from, i, n);
    repeat_bytes(out, from + k, i + k, n - k);
}
