// The front of a run: the first eight bytes of the key at which its cursor stands, as one number. Where two fronts
// differ, the keys are ordered as they are.
ghost use Rattle.std.specs.Prelude.{◌≡◌, ◌≤◌, ◌<◌, length, get_or};
ghost use Rattle.number.specs.Bytes.{part};
ghost use Rattle.field.specs.Places.{key_in};
ghost use Rattle.item.specs.Place.{KeyIn};
ghost use Rattle.cursors.specs.Cursor.{Stands};
ghost use Rattle.item.specs.Front.{front_key};
ghost use Rattle.cursors.specs.Front.{Fronts};

use crate::cursor::item_at;
use field::key::Key;
use item::front::front_in;
use number::word_at;

// The byte at i; 0 from `to` on.
fn digit(s: &[u8], i: usize, to: usize) -> u64
    requires { to ≤ length s.now }
    ensures { (result ≡ get_or (part s.now i to) 0 0) × (result < 256) }
{
    if i < to {
        return u64::from(s[i]);
    }
    0
}

// The front of a key.
fn front_of(s: &[u8], k: Key) -> u64
    requires { KeyIn s.now k }
    ensures { (result ≡ front_key (key_in s.now k)) × (result < 18446744073709551615) }
{
    let mut front = u64::from(k.kind);
    for i in k.from..k.from + 7 {
        front = front * 256 + digit(s, i, k.to);
    }
    front
}

// The front of the run from p up to e, by the item at p; at its end one above all others.
fn front_by_item(store: &[u8], p: usize, e: usize) -> u64
    requires { Stands store.now p e }
    ensures { Fronts store.now p e result }
{
    let Some(x) = item_at(store, p, e) else {
        return u64::MAX;
    };
    let key = x.key;
    front_of(store, key)
}

// The front of the run from p up to e: of a tag and the eight bytes behind its head, where they are there.
pub(crate) fn front_at(store: &[u8], p: usize, e: usize) -> u64
    requires { Stands store.now p e }
    ensures { Fronts store.now p e result }
{
    if 11 <= e - p {
        return front_in(store[p] / 16, word_at(store, p + 3)) as u64;
    }
    front_by_item(store, p, e)
}
