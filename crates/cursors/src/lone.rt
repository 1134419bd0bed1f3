// What one run has below all others: the next items of the merge, as they lie.
ghost use Rattle.cursors.specs.Cursor.{Stands};
ghost use Rattle.cursors.specs.Lone.{Sought, Leads};
ghost use Rattle.cursors.specs.Walk.{Underway, Kept, Passed};

use crate::runs::Walk;
use turn::stretch::{Stretch, seek_changes};

// Where they lie in the store, and how many of them announce and withdraw.
#[derive(Clone, Copy)]
pub struct Lone {
    pub from: usize,
    pub to: usize,
    pub announced: usize,
    pub withdrawn: usize,
}

// The items of the run from p up to e whose fronts are below a bound.
fn seek_run(store: &[u8], p: usize, e: usize, bound: u64) -> Stretch
    requires { Stands store.now p e }
    ensures { Sought store.now p e bound result }
{
    seek_changes(&store[..e], p, bound as usize)
}

impl Walk<'_> {
    // Run p goes past what it has below all others.
    fn pass(&mut self, p: usize) -> Lone
        requires { Leads self.old.store.now self.old.at self.old.ends self.old.from self.old.n self.old.fronts.of p }
        ensures { Passed self.old self.new result × Underway self.new × Kept self.old self.new }
    {
        let bound = self.fronts.lowest_beside(p);
        let start = self.at[p];
        let e = self.ends[p];
        let run = seek_run(self.store, start, e, bound);
        let to = run.to;
        self.advance(p, to);
        Lone {
            from: start,
            to,
            announced: run.announced,
            withdrawn: run.withdrawn,
        }
    }

    // What the run with the lowest front has below all others, if anything; it goes past that.
    pub fn pass_lone(&mut self) -> Lone
        requires { Underway self.old }
        ensures { Passed self.old self.new result × Underway self.new × Kept self.old self.new }
    {
        let p = self.fronts.find(self.fronts.lowest(64), self.from, self.n);
        if self.n <= p {
            return Lone {
                from: 0,
                to: 0,
                announced: 0,
                withdrawn: 0,
            };
        }
        self.pass(p)
    }
}
