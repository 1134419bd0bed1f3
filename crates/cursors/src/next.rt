// The walk over the runs as an iterator: each call gives the next item of their merge.
ghost use Rattle.cursors.specs.Cursor.{Filled, Made};
ghost use Rattle.cursors.specs.Walk.{Gives, Kept, Underway};

use crate::cursor::item_at;
use crate::runs::Walk;
use field::key::Key;
use item::place::Act;

// A change at the first key of the run from p up to e: where the key and the values lie in the store.
fn made(store: &[u8], p: usize, e: usize, act: Act) -> Option<(Key, Act)>
    requires { Filled store.now p e }
    ensures { Made store.now p e act result }
{
    let Some(x) = item_at(store, p, e) else {
        // Never: the run has an item.
        return None;
    };
    Some((x.key, act))
}

impl Walk<'_> {
    // The next item of the runs, merged; keys of which nothing is left are passed over.
    pub fn next(&mut self) -> Option<(Key, Act)>
        requires { Underway self.old }
        ensures { Gives self.old self.new result × Underway self.new × Kept self.old self.new }
    {
        loop {
            let low = self.fronts.lowest(64);
            let Some(lead) = self.least(low) else {
                return None;
            };
            let held = self.gather(low, lead);
            if let Some(act) = held {
                return made(self.store, lead.at, lead.end, act);
            }
        }
    }
}
