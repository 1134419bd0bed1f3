// What one run says of a key, if anything: its change there, and where the run goes on.
ghost use Rattle.std.specs.Prelude.{◌≡◌, ◌+◌, get_or};
ghost use Rattle.field.specs.If.{If};
ghost use Rattle.walk.specs.Origins.{OriginAt};
ghost use Rattle.cursors.specs.Cursor.{Filled, key_at, origin_act, Says};

use crate::cursor::item_at;
use crate::rank::rank;
use item::place::{Act, Part};
use std::cmp::Ordering;
use walk::origins::origin_at;

// The change of an origin with this tag, whose field ends at `to`: it has no value.
fn origin_act(tag: u8, to: usize) -> Act
    ensures { result ≡ origin_act tag to }
{
    let none = Part { from: to, to };
    if tag == 0x11 {
        return Act::Announce(none);
    }
    Act::Withdraw(none)
}

// What the origin at a place of a delta says of its key.
fn said_origin(s: &[u8], at: usize) -> (Act, usize)
    requires { OriginAt s.now at }
    ensures { result ≡ (origin_act (get_or s.now at 0) (at + 26), at + 26) }
{
    let next = at + 26;
    (origin_act(s[at], next), next)
}

// What the run from p up to e says of its first key.
fn said_first(store: &[u8], p: usize, e: usize) -> Option<(Act, usize)>
    requires { Filled store.now p e }
    ensures { Says store.now p e (key_at store.now p e) result }
{
    if origin_at(&store[..e], p) {
        return Some(said_origin(&store[..e], p));
    }
    let Some(x) = item_at(store, p, e) else {
        return None;
    };
    Some((x.act, x.next))
}

// What the run from p up to e says of the first key of the run from q up to g; if it is known to be the same as its own,
// nothing is compared.
pub(crate) fn ask(
    store: &[u8],
    p: usize,
    e: usize,
    q: usize,
    g: usize,
    same: bool,
) -> Option<(Act, usize)>
    requires { Filled store.now p e × (Filled store.now q g × If same (key_at store.now p e ≡ key_at store.now q g)) }
    ensures { Says store.now p e (key_at store.now q g) result }
{
    if same {
        return said_first(store, p, e);
    }
    match rank(store, q, g, p, e) {
        Ordering::Equal => said_first(store, p, e),
        Ordering::Less | Ordering::Greater => None,
    }
}
