// The front of a record: the first eight bytes of its key as one number.
ghost use Rattle.std.specs.Prelude.{◌≡◌, ◌+◌, ◌/◌, ◌*◌, ◌<◌, cond, eqb};
ghost use Rattle.item.specs.Front.{front_key};
ghost use Rattle.number.specs.Number.{word_at};
ghost use Rattle.heard.specs.Place.{key_at, Payload};
ghost use Rattle.heard.specs.Compare.{Of};

use crate::place::type_at;
use number::word_at;

// What a prefix's front has of the eight bytes from its address on: of an IPv4 one the four of the address alone.
fn address_in(kind: u8, w: usize) -> usize
    ensures { (result ≡ cond (eqb kind 4) (w / 4294967296 * 65536) (w / 65536)) × (result < 281474976710656) }
{
    if kind == 4 {
        return w / 4294967296 * 65536;
    }
    w / 65536
}

// The front of a message's record: its kind, of a prefix the family, and then what comes first in the message.
pub fn front_at(s: &[u8], at: usize) -> usize
    requires { Payload s.now at }
    ensures { result ≡ front_key (key_at s.now at) }
{
    let kind = type_at(s, at);
    if kind == 9 {
        return 0x0200000000000000 + word_at(s, at + 8) / 256;
    }
    0x0100000000000000 + usize::from(kind) * 0x1000000000000 + address_in(kind, word_at(s, at + 12))
}

// The word of an IPv6 prefix's record behind its front.
pub fn middle_at(s: &[u8], at: usize) -> usize
    requires { Of s.now 6 at }
    ensures { result ≡ word_at s.now (at + 18) }
{
    word_at(s, at + 18)
}
