// A message's record sought in the snapshot.
ghost use Rattle.std.specs.Prelude.{◌≡◌, ◌≤◌, length};
ghost use Rattle.field.specs.Places.{key_in};
ghost use Rattle.item.specs.declared.reading.Reading.TheVariants.{Announced};
ghost use Rattle.item.specs.Reading.{Ready};
ghost use Rattle.heard.specs.Place.{key_at, Payload};
ghost use Rattle.heard.specs.Field.{record_field};
ghost use Rattle.judge.specs.State.{Finds, IsPast};

use field::key::{Key, key_compare};
use heard::front::front_at;
use heard::place::type_at;
use heard::put::put_record;
use item::front::front_in;
use item::place::Part;
use item::reading::{Reading, read_at};
use number::word_at;
use std::cmp::Ordering;
use turn::seek::seek;

// From `start` on the item with this key; where there is none, no bytes, in front of the first item above it.
fn find_key(snapshot: &[u8], start: usize, name: &[u8], key: Key) -> Part
    requires { Ready Announced snapshot.now start }
    ensures { Finds snapshot.now start (key_in name.now key) result }
{
    let mut at = start;
    loop {
        let Some(item) = read_at(Reading::Announced, snapshot, at) else {
            return Part { from: at, to: at };
        };
        match key_compare(snapshot, item.key, name, key) {
            Ordering::Less => {
                at = item.next;
            }
            Ordering::Equal => {
                return Part {
                    from: at,
                    to: item.next,
                };
            }
            Ordering::Greater => {
                return Part { from: at, to: at };
            }
        }
    }
}

// The same of the record of the message at x, which is laid into an array.
fn find_named(snapshot: &[u8], start: usize, s: &[u8], x: usize, name: &mut [u8]) -> Part
    requires { Ready Announced snapshot.now start × (Payload s.now x × (length (record_field (key_at s.now x)) ≤ length name.old)) }
    ensures { Finds snapshot.now start (key_at s.now x) result }
{
    let size = put_record(s, x, name, 0);
    let key = Key {
        kind: name[0],
        from: 3,
        to: size,
    };
    find_key(snapshot, start, name, key)
}

// The same with an array of its own: a short one is enough for a prefix.
fn find_exactly(snapshot: &[u8], start: usize, s: &[u8], x: usize) -> Part
    requires { Ready Announced snapshot.now start × Payload s.now x }
    ensures { Finds snapshot.now start (key_at s.now x) result }
{
    if type_at(s, x) == 9 {
        let mut name = [0u8; 1056];
        return find_named(snapshot, start, s, x, &mut name);
    }
    let mut name = [0u8; 32];
    find_named(snapshot, start, s, x, &mut name)
}

// Whether what the snapshot has from `at` on is surely above a record with this front.
fn is_past(snapshot: &[u8], at: usize, front: usize) -> bool
    requires { Ready Announced snapshot.now at }
    ensures { IsPast snapshot.now at front result }
{
    if snapshot.len() <= at {
        return true;
    }
    if snapshot.len() - at < 11 {
        return false;
    }
    front < front_in(snapshot[at], word_at(snapshot, at + 3))
}

// From `start` on the item of the record of the message at x; where there is none, no bytes, in front of the first item above it.
pub fn find(snapshot: &[u8], start: usize, s: &[u8], x: usize) -> Part
    requires { Ready Announced snapshot.now start × Payload s.now x }
    ensures { Finds snapshot.now start (key_at s.now x) result }
{
    let front = front_at(s, x);
    let run = seek(snapshot, start, front);
    let at = run.at;
    if is_past(snapshot, at, front) {
        return Part { from: at, to: at };
    }
    find_exactly(snapshot, at, s, x)
}
