// How the first keys of two runs stand to each other.
ghost use Rattle.std.specs.Prelude.{◌≡◌};
ghost use Rattle.order.specs.Comparison.{bytes};
ghost use Rattle.cursors.specs.Cursor.{Filled, key_at};

use crate::cursor::item_at;
use field::key::key_compare;
use std::cmp::Ordering;
use walk::origins::{both_at, origin_compare};

// By the items.
fn rank_items(store: &[u8], p: usize, e: usize, q: usize, g: usize) -> Ordering
    requires { Filled store.now p e × Filled store.now q g }
    ensures { result ≡ bytes (key_at store.now p e) (key_at store.now q g) }
{
    let Some(x) = item_at(store, p, e) else {
        // Never: the run has an item.
        return Ordering::Less;
    };
    let Some(y) = item_at(store, q, g) else {
        // Never.
        return Ordering::Less;
    };
    let a = x.key;
    let b = y.key;
    key_compare(store, a, store, b)
}

// How the first key of the run from p up to e stands to that of the run from q up to g: of two origins by their words.
pub(crate) fn rank(store: &[u8], p: usize, e: usize, q: usize, g: usize) -> Ordering
    requires { Filled store.now p e × Filled store.now q g }
    ensures { result ≡ bytes (key_at store.now p e) (key_at store.now q g) }
{
    if both_at(&store[..e], p, &store[..g], q) {
        return origin_compare(&store[..e], p, &store[..g], q);
    }
    rank_items(store, p, e, q, g)
}
