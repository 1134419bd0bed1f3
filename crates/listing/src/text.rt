// Text into a lent slice: what has no room is counted and not written. Each function gives the place behind its text.
ghost use Rattle.std.specs.Prelude.{◌+◌, ◌^◌, ◌<◌, ◌≤◌, length};
ghost use Rattle.listing.specs.Text.{decimal};
ghost use Rattle.listing.specs.Listing.{named, three_of};
ghost use Rattle.listing.specs.Put.{Puts};

use item::copy::copy;
use item::place::Part;

// A text at i.
pub fn put_text(text: &[u8], out: &mut [u8], i: usize) -> usize
    requires { i + length text.now < 2 ^ 64 }
    ensures { Puts out.old i text.now out.new result }
{
    let to = text.len();
    copy(text, Part { from: 0, to }, out, i);
    i + to
}

// A number at i, in decimal.
fn put_number(n: u64, out: &mut [u8], i: usize) -> usize
    requires { i < 2 ^ 63 }
    ensures { Puts out.old i (decimal n) out.new result }
{
    let mut digits = [0u8; 20];
    let to = io::decimal(n, &mut digits);
    put_text(&digits[..to], out, i)
}

// A word and a number at i.
pub fn put_named(word: &[u8], n: u64, out: &mut [u8], i: usize) -> usize
    requires { (length word.now ≤ 16) × (i < 2 ^ 62) }
    ensures { Puts out.old i (named word.now n) out.new result }
{
    let j = put_text(word, out, i);
    put_number(n, out, j)
}

// A line of three such, at the start of out.
pub fn put_three(a: &[u8], x: u64, b: &[u8], y: u64, c: &[u8], z: u64, out: &mut [u8]) -> usize
    requires { (length a.now ≤ 16) × ((length b.now ≤ 16) × (length c.now ≤ 16)) }
    ensures { Puts out.old 0 (three_of a.now x b.now y c.now z) out.new result }
{
    let i = put_named(a, x, out, 0);
    let j = put_named(b, y, out, i);
    let k = put_named(c, z, out, j);
    put_text(b"\n", out, k)
}
