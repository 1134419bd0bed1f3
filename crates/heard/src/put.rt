// The snapshot's field of a message's record, written.
ghost use Rattle.std.specs.Prelude.{◌≡◌, ◌+◌, ◌≤◌, length};
ghost use Rattle.std.proofs.lemmas.List.Edits.{sets};
ghost use Rattle.field.specs.Words.{words_at};
ghost use Rattle.heard.specs.Place.{key_at, Payload};
ghost use Rattle.heard.specs.Field.{record_field};
ghost use Rattle.heard.specs.Compare.{Of};
ghost use Rattle.heard.specs.Put.{Prefix, words_bytes, Holds};

use crate::place::{size_at, type_at};
use field::words::Words;
use item::copy::{copy, store, store_two, store_word};
use item::place::Part;
use number::word_at;

// The field of an IPv4 prefix's record, as words.
pub(crate) fn four_words(s: &[u8], at: usize) -> Words
    requires { Prefix s.now 4 20 at }
    ensures { result ≡ words_at (record_field (key_at s.now at)) 0 }
{
    let start = word_at(s, at + 8);
    let asn = word_at(s, at + 12) % 4294967296;
    Words {
        first: 0x0100170400000000 + start % 4294967296,
        second: 0,
        third: start / 1099511627776 % 65536 * 65536 + asn / 65536,
        last: asn % 65536,
    }
}

// The field of an IPv6 prefix's record, as words.
// Kept: as `four_words`, from other places of another message.
pub(crate) fn six_words(s: &[u8], at: usize) -> Words
    requires { Prefix s.now 6 32 at }
    ensures { result ≡ words_at (record_field (key_at s.now at)) 0 }
{
    let start = word_at(s, at + 8);
    let end = word_at(s, at + 24);
    let asn = end % 4294967296;
    let lengths = start / 1099511627776 % 65536;
    Words {
        first: 0x0100170600000000 + start % 4294967296,
        second: word_at(s, at + 16),
        third: (end / 4294967296 * 65536 + lengths) * 65536 + asn / 65536,
        last: asn % 65536,
    }
}

// The words of a field at i.
pub(crate) fn store_words(out: &mut [u8], i: usize, w: Words)
    requires { Holds out.old i w }
    ensures { out.new ≡ sets out.old i (words_bytes w) }
{
    store_word(out, i, w.first);
    store_word(out, i + 8, w.second);
    store_word(out, i + 16, w.third);
    store_two(out, i + 24, w.last);
}

// The field of a router key's record at i, and its size.
fn put_key(s: &[u8], at: usize, out: &mut [u8], i: usize) -> usize
    requires { Of s.now 9 at × (i + length (record_field (key_at s.now at)) ≤ length out.old) }
    ensures { (result ≡ length (record_field (key_at s.now at))) × (out.new ≡ sets out.old i (record_field (key_at s.now at))) }
{
    let size = size_at(s, at);
    store(out, i, 2);
    store_two(out, i + 1, size - 8);
    copy(
        s,
        Part {
            from: at + 8,
            to: at + size,
        },
        out,
        i + 3,
    );
    size - 5
}

// The field of a message's record at i, and its size.
pub fn put_record(s: &[u8], at: usize, out: &mut [u8], i: usize) -> usize
    requires { Payload s.now at × (i + length (record_field (key_at s.now at)) ≤ length out.old) }
    ensures { (result ≡ length (record_field (key_at s.now at))) × (out.new ≡ sets out.old i (record_field (key_at s.now at))) }
{
    match type_at(s, at) {
        4 => {
            store_words(out, i, four_words(s, at));
            26
        }
        6 => {
            store_words(out, i, six_words(s, at));
            26
        }
        _ => put_key(s, at, out, i),
    }
}
