// What was written so far, and what was left out.
ghost use Rattle.std.specs.Prelude.{◌≡◌, ◌≤◌};
ghost use Rattle.item.specs.Place.{item_in};
ghost use Rattle.wire.specs.Tally.{Countable, Says, plus_place, skip_place, ItemIs};

use field::key::Key;
use item::place::Act;
use message::version::{Version, is_spoken};
use pdu::record::{flags_of, put_message};

// The bytes of all messages, how many of them announce and withdraw, and the items that there is no message for.
#[derive(Clone, Copy)]
pub struct Tally {
    pub len: usize,
    pub announced: usize,
    pub withdrawn: usize,
    pub keys: usize,
    pub aspas: usize,
}

// One message more, of these flags and this size.
fn plus(t: Tally, flags: u8, size: usize) -> Tally
    requires { Countable t × ((flags ≤ 1) × (size ≤ 1056)) }
    ensures { result ≡ plus_place t flags size }
{
    let announces = usize::from(flags);
    Tally {
        len: t.len + size,
        announced: t.announced + announces,
        withdrawn: t.withdrawn + (1 - announces),
        ..t
    }
}

// One item more that there is no message for.
fn skip(t: Tally, kind: u8) -> Tally
    requires { Countable t }
    ensures { result ≡ skip_place t kind }
{
    if kind == 2 {
        return Tally {
            keys: t.keys + 1,
            ..t
        };
    }
    Tally {
        aspas: t.aspas + 1,
        ..t
    }
}

// The message of an item behind what was written so far, if there is one for it and room for all of it.
pub(crate) fn put_item(
    version: Version,
    s: &[u8],
    key: Key,
    act: Act,
    out: &mut [u8],
    t: Tally,
) -> Tally
    requires { Says s.now key act × Countable t }
    ensures { ItemIs version (item_in s.now s.now key act) t out.old out.new result }
{
    if !is_spoken(version, key.kind) {
        return skip(t, key.kind);
    }
    let flags = flags_of(act);
    let size = put_message(version, s, key, flags, out, t.len);
    plus(t, flags, size)
}
