// Whether a good payload message stands at a place.
ghost use Rattle.std.specs.Prelude.{◌≡◌, ◌<◌, drop};
ghost use Rattle.body.specs.Origin.{good_origin};
ghost use Rattle.message.specs.Record.{good_record};
ghost use Rattle.heard.specs.Place.{key_at};
ghost use Rattle.heard.specs.Put.{words_bytes, Prefix};
ghost use Rattle.heard.specs.Step.{Framed, payload_at};

use crate::put::{four_words, six_words, store_words};
use body::origin::origin_ok;
use field::words::Words;
use message::version::{Version, is_spoken};

// Whether the field of an origin, as words, has a good body.
fn words_good(w: Words) -> bool
    requires { w.last < 65536 }
    ensures { result ≡ good_origin (drop 3 (words_bytes w)) }
{
    let mut field = [0u8; 26];
    store_words(&mut field, 0, w);
    origin_ok(&field[3..26])
}

// Whether the record of an IPv4 prefix is good.
fn four_good(s: &[u8], at: usize) -> bool
    requires { Prefix s.now 4 20 at }
    ensures { result ≡ good_record (key_at s.now at) }
{
    words_good(four_words(s, at))
}

// Whether the record of an IPv6 prefix is good.
fn six_good(s: &[u8], at: usize) -> bool
    requires { Prefix s.now 6 32 at }
    ensures { result ≡ good_record (key_at s.now at) }
{
    words_good(six_words(s, at))
}

// Whether this is a good payload message of the version.
pub(crate) fn is_payload(version: Version, s: &[u8], at: usize, size: usize) -> bool
    requires { Framed s.now at size }
    ensures { result ≡ payload_at version s.now at }
{
    match s[at + 1] {
        4 => {
            if size != 20 {
                return false;
            }
            if 1 < s[at + 8] {
                return false;
            }
            four_good(s, at)
        }
        6 => {
            if size != 32 {
                return false;
            }
            if 1 < s[at + 8] {
                return false;
            }
            six_good(s, at)
        }
        9 => {
            if !is_spoken(version, 2) {
                return false;
            }
            if size < 32 {
                return false;
            }
            if 1 < s[at + 2] {
                return false;
            }
            size <= 1056
        }
        _ => false,
    }
}
