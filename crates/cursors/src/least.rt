// The least key at which any cursor stands, and the runs that may have it.
ghost use Rattle.cursors.specs.Front.{Looks, Pair, Lowers, LeastBy};

use crate::rank::rank;
use crate::runs::Walk;
use std::cmp::Ordering;

// Where a run stands at the least key, and the end of that run; the first run and the last with its front, and whether all
// with its front stand at it. A no decides nothing.
#[derive(Clone, Copy)]
pub struct Lead {
    pub at: usize,
    pub end: usize,
    pub first: usize,
    pub last: usize,
    pub same: bool,
}

// A run, and whether all that were looked at stand at its key.
#[derive(Clone, Copy)]
pub struct Lower {
    pub run: usize,
    pub same: bool,
}

impl Walk<'_> {
    // Of runs b and p the one that stands lower; b where they stand at the same key.
    fn lower_run(&self, b: usize, p: usize, same: bool) -> Lower
        requires { Pair self.now.store.now self.now.at self.now.ends b p }
        ensures { Lowers self.now.store.now self.now.at self.now.ends b p same result }
    {
        match rank(
            self.store,
            self.at[b],
            self.ends[b],
            self.at[p],
            self.ends[p],
        ) {
            Ordering::Less => Lower {
                run: b,
                same: false,
            },
            Ordering::Equal => Lower { run: b, same },
            Ordering::Greater => Lower {
                run: p,
                same: false,
            },
        }
    }

    // The least key of the runs, of which the lowest front is low.
    pub(crate) fn least(&self, low: u64) -> Option<Lead>
        requires { Looks self.now.store.now self.now.at self.now.ends self.now.from self.now.n self.now.fronts.of low }
        ensures { LeastBy self.now.store.now self.now.at self.now.ends self.now.from self.now.n self.now.fronts.of low result }
    {
        if low == u64::MAX {
            return None;
        }
        let first = self.fronts.find(low, self.from, self.n);
        let mut best = first;
        let mut last = first;
        let mut same = true;
        loop {
            let p = self.fronts.find(low, last + 1, self.n);
            if self.n <= p {
                return Some(Lead {
                    at: self.at[best],
                    end: self.ends[best],
                    first,
                    last,
                    same,
                });
            }
            last = p;
            let lower = self.lower_run(best, p, same);
            best = lower.run;
            same = lower.same;
        }
    }
}
