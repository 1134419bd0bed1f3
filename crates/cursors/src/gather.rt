// The changes of all runs at one key, merged: earliest first.
ghost use Rattle.std.proofs.Math.Option.{some};
ghost use Rattle.order.specs.Comparison.{bytes};
ghost use Rattle.change.specs.Merge.{merge_at};
ghost use Rattle.item.specs.Place.{ActFits, Holds, held_in, change_in};
ghost use Rattle.cursors.specs.Cursor.{HeldAt};
ghost use Rattle.cursors.specs.Front.{Meets, Takes, Taken};
ghost use Rattle.cursors.specs.Walk.{InLine, Kept, Took};

use crate::least::Lead;
use crate::runs::Walk;
use crate::said::ask;
use item::place::Act;
use item::table::merged;

// What is held, and then a later change.
fn join(store: &[u8], held: Option<Act>, act: Act) -> Option<Act>
    requires { HeldAt store.now held × ActFits store.now store.now act }
    ensures { Holds store.now store.now (merge_at bytes (held_in store.now store.now held) (some (change_in store.now store.now act))) result }
{
    match held {
        None => Some(act),
        Some(earlier) => merged(store, earlier, store, act),
    }
}

impl Walk<'_> {
    // What is held, and then what run p says of the least key; if it stands there it goes past it.
    // `same`: it is known to stand there.
    fn take(&mut self, p: usize, q: usize, g: usize, same: bool, held: Option<Act>) -> Option<Act>
        requires { Takes self.old.store.now self.old.at self.old.ends self.old.fronts.of p q g same held }
        ensures { Taken self.old.store.now self.old.at self.new.at self.old.ends self.old.fronts.of self.new.fronts.of p q g held result × Kept self.old self.new }
    {
        let Some((act, next)) = ask(self.store, self.at[p], self.ends[p], q, g, same) else {
            return held;
        };
        self.advance(p, next);
        join(self.store, held, act)
    }

    // What the runs say of the least key, merged; those that stand at it go past it. Its front is low, and no run before
    // the first with that front is asked, and none behind the last.
    pub(crate) fn gather(&mut self, low: u64, lead: Lead) -> Option<Act>
        requires { Meets self.old.store.now self.old.at self.old.ends self.old.from self.old.n self.old.fronts.of low lead.first lead.last lead.at lead.end lead.same }
        ensures { Took self.old self.new lead.at lead.end result × InLine self.new × Kept self.old self.new }
    {
        let Lead {
            at: q,
            end: g,
            first,
            last,
            same,
        } = lead;
        let mut held = None;
        let mut r = first;
        loop {
            let p = self.fronts.find(low, r, last + 1);
            if last < p {
                return held;
            }
            r = p + 1;
            held = self.take(p, q, g, same, held);
        }
    }
}
