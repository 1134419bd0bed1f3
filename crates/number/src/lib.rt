// Numbers of several bytes: big-endian.
#![tactic(auto)]

ghost use Rattle.std.specs.Prelude.{◌≡◌, ◌+◌, ◌≤◌, ◌<◌, length};
ghost use Rattle.number.specs.Number.{two_at, four_at, word_at, asn_at};

use serial::Asn;

pub mod compare;

// The two bytes at i as a number.
pub fn pair_at(s: &[u8], i: usize) -> usize
    requires { i + 2 ≤ length s.now }
    ensures { (result ≡ two_at s.now i) × (result < 65536) }
{
    let high = usize::from(s[i]);
    let low = usize::from(s[i + 1]);
    high * 256 + low
}

// The two bytes at i as a number. A byte past the end counts as 0.
pub fn two_at(s: &[u8], i: usize) -> usize
    ensures { (result ≡ two_at s.now i) × (result < 65536) }
{
    if s.len() <= i {
        return 0;
    }
    if s.len() - i < 2 {
        return usize::from(s[i]) * 256;
    }
    pair_at(s, i)
}

// The four bytes at i as a number.
pub fn four_at(s: &[u8], i: usize) -> usize
    requires { i + 4 ≤ length s.now }
    ensures { (result ≡ four_at s.now i) × (result < 4294967296) }
{
    usize::from(s[i]) * 16777216
        + usize::from(s[i + 1]) * 65536
        + usize::from(s[i + 2]) * 256
        + usize::from(s[i + 3])
}

// The eight bytes at i as a number. Made of two fours it is compiled to one load.
pub fn word_at(s: &[u8], i: usize) -> usize
    requires { i + 8 ≤ length s.now }
    ensures { result ≡ word_at s.now i }
{
    four_at(s, i) * 4294967296 + four_at(s, i + 4)
}

// The four bytes at i as an AS number.
pub fn asn_at(s: &[u8], i: usize) -> Asn
    requires { i + 4 ≤ length s.now }
    ensures { result ≡ asn_at s.now i }
{
    let n = four_at(s, i);
    Asn(n as u32)
}
