// The runs that are walked together: where the cursor of each stands and where it ends, and the front of each.
ghost use Rattle.std.specs.Prelude.{◌≡◌, set};
ghost use Rattle.cursors.specs.Cursor.{Within};
ghost use Rattle.cursors.specs.Front.{Advances, Advanced};
ghost use Rattle.cursors.specs.Walk.{LinedUp, Kept};

use crate::eights::Eights;
use crate::front::front_at;

// Of the runs of a store those from `from` up to n take part.
// Kept: two arrays of 64, `at` and `ends`, since `NextIs` (specs/Cursor.antt) speaks of two lists, and memory is fixed.
#[derive(Clone, Copy)]
pub struct Walk<'a> {
    pub store: &'a [u8],
    pub at: [usize; 64],
    pub ends: [usize; 64],
    pub fronts: Eights,
    pub from: usize,
    pub n: usize,
}

impl<'a> Walk<'a> {
    // The walk over the runs from `from` up to n, with their fronts.
    pub fn new(
        store: &'a [u8],
        at: &[usize; 64],
        ends: &[usize; 64],
        from: usize,
        n: usize,
    ) -> Walk<'a>
        requires { Within store.now at.now ends.now n }
        ensures { LinedUp store.now at.now ends.now from n result }
    {
        let mut fronts = Eights { of: [u64::MAX; 72] };
        for r in from..n {
            fronts.settle(r, front_at(store, at[r], ends[r]));
        }
        Walk {
            store,
            at: *at,
            ends: *ends,
            fronts,
            from,
            n,
        }
    }

    // Run p goes on at next.
    pub(crate) fn advance(&mut self, p: usize, next: usize)
        requires { Advances self.old.store.now self.old.at self.old.ends self.old.fronts.of p next }
        ensures { (self.new.at ≡ set self.old.at p next) × Advanced self.old.store.now self.old.ends self.old.fronts.of self.new.fronts.of p next × Kept self.old self.new }
    {
        let e = self.ends[p];
        self.fronts.settle(p, front_at(self.store, next, e));
        self.at[p] = next;
    }
}
