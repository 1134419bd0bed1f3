// The body of an origin.
ghost use Rattle.std.specs.Prelude.{◌≡◌, length};
ghost use Rattle.body.specs.Halves.{clean_halves};
ghost use Rattle.body.specs.Origin.{address, clean, good_prefix, good_origin};

use number::word_at;

// Whether an address, by its halves, has no bit past a prefix of p bits.
pub fn clean_halves(p: usize, high: usize, low: usize) -> bool
    ensures { result ≡ clean_halves p high low }
{
    if p < 64 {
        if low != 0 {
            return false;
        }
        return high << p == 0;
    }
    if 128 <= p {
        return true;
    }
    low << (p - 64) == 0
}

// Whether the address of an origin's body has no bit past a prefix of p bits, by its two halves.
fn clean_address(p: usize, body: &[u8]) -> bool
    requires { length body.now ≡ 23 }
    ensures { result ≡ clean p (address body.now) }
{
    clean_halves(p, word_at(body, 1), word_at(body, 9))
}

// The lengths and the address of an origin, with the longest prefix of its family.
fn prefix_ok(bound: usize, body: &[u8]) -> bool
    requires { length body.now ≡ 23 }
    ensures { result ≡ good_prefix bound body.now }
{
    let prefix = usize::from(body[17]);
    let maximum = usize::from(body[18]);
    if maximum < prefix {
        return false;
    }
    if bound < maximum {
        return false;
    }
    clean_address(prefix, body)
}

// Whether this is the body of an origin.
pub fn origin_ok(body: &[u8]) -> bool
    ensures { result ≡ good_origin body.now }
{
    if body.len() != 23 {
        return false;
    }
    let family = body[0];
    match family {
        4 => prefix_ok(32, body),
        6 => prefix_ok(128, body),
        _ => false,
    }
}
