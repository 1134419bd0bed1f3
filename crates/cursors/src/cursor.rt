// A cursor: where the walk stands in one run of the delta store. The run ends at e, and its items lie in the store itself.
ghost use Rattle.cursors.specs.Cursor.{Stands, Heads};

use item::place::Entry;
use item::reading::{Reading, read_at};

// Kept: store, p and e as parameters, here and in front, rank and said. A struct of the three is no plainer: each call would
// make one from a walk's arrays, and its contract would name the same three.

// The item at p of a run that ends at e.
pub(crate) fn item_at(store: &[u8], p: usize, e: usize) -> Option<Entry>
    requires { Stands store.now p e }
    ensures { Heads store.now p e result }
{
    read_at(Reading::Changes, &store[..e], p)
}
