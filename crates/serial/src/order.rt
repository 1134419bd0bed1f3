// The order of serials, by RFC 1982.
ghost use Rattle.std.specs.Prelude.{◌≡◌};
ghost use Rattle.serial.specs.Rfc1982.{standing};

use super::{Serial, distance};
use std::cmp::Ordering;

// 2^31: serials as far apart as this are unordered.
const HALF: u32 = 2147483648;

// How `a` stands to `b`, where they are ordered.
pub fn compare(a: Serial, b: Serial) -> Option<Ordering>
    ensures { result ≡ standing a b }
{
    let ahead = distance(a, b);
    if ahead == 0 {
        return Some(Ordering::Equal);
    }
    if ahead < HALF {
        return Some(Ordering::Greater);
    }
    if ahead == HALF {
        return None;
    }
    Some(Ordering::Less)
}
