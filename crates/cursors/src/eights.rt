// 64 fronts, and behind them the lowest of each eight, so that the lowest of all is found in few steps.
// Kept: one array, since `Blocks` and `Fronted` (specs/Front.antt) speak of one list of 72.
ghost use Rattle.std.specs.Prelude.{◌≡◌, ◌+◌, ◌*◌, ◌/◌, ◌≤◌, ◌<◌, length};
ghost use Rattle.item.specs.Front.{top};
ghost use Rattle.cursors.specs.Front.{Lowest, Blocks, Finds, Skips, Settled};

#[derive(Clone, Copy)]
pub struct Eights {
    pub of: [u64; 72],
}

impl Eights {
    // The lowest of the eight from `from` on.
    pub(crate) fn lowest(&self, from: usize) -> u64
        requires { (length self.now.of ≡ 72) × (from + 8 ≤ 72) }
        ensures { Lowest self.now.of from (from + 8) result }
    {
        let f = &self.of;
        let a = f[from].min(f[from + 1]);
        let b = f[from + 2].min(f[from + 3]);
        let c = f[from + 4].min(f[from + 5]);
        let d = f[from + 6].min(f[from + 7]);
        a.min(b).min(c.min(d))
    }

    // The first place from `from` up to n with this front, one by one.
    fn find_singly(&self, low: u64, from: usize, n: usize) -> usize
        requires { (length self.now.of ≡ 72) × (n ≤ 64) }
        ensures { Finds self.now.of low from n result }
    {
        for r in from..n {
            if self.of[r] == low {
                return r;
            }
        }
        from.max(n)
    }

    // The first place from r up to the end of its eight with this front.
    fn find_near(&self, low: u64, r: usize) -> usize
        requires { Blocks self.now.of × (r < 64) }
        ensures { Finds self.now.of low r (r / 8 * 8 + 8) result }
    {
        let b = r / 8;
        let end = b * 8 + 8;
        if low < self.of[64 + b] {
            return end;
        }
        self.find_singly(low, r, end)
    }

    // The first eight from `from` on whose lowest is not above low.
    fn skip(&self, low: u64, from: usize) -> usize
        requires { (length self.now.of ≡ 72) × (from ≤ 8) }
        ensures { Skips self.now.of low from result }
    {
        for b in from..8 {
            if self.of[64 + b] <= low {
                return b;
            }
        }
        8
    }

    // The first place from `from` on with this front.
    // Kept: a `while`, since r goes on by whole eights, as far as `skip` says; a `for` is no plainer.
    pub(crate) fn find(&self, low: u64, from: usize, n: usize) -> usize
        requires { Blocks self.now.of × (n ≤ 64) }
        ensures { Finds self.now.of low from n result }
    {
        let mut r = from;
        while r < n {
            let end = r / 8 * 8 + 8;
            let p = self.find_near(low, r);
            if p < end {
                return p;
            }
            r = self.skip(low, r / 8 + 1) * 8;
        }
        r
    }

    // The front at r becomes v.
    pub(crate) fn settle(&mut self, r: usize, v: u64)
        requires { Blocks self.old.of × (r < 64) }
        ensures { Settled self.old.of self.new.of r v }
    {
        self.of[r] = v;
        let b = r / 8;
        let low = self.lowest(b * 8);
        self.of[64 + b] = low;
    }

    // The lowest front of all but that at p, which is set aside.
    pub(crate) fn lowest_beside(&mut self, p: usize) -> u64
        requires { Blocks self.old.of × (p < 64) }
        ensures { Settled self.old.of self.new.of p top × Lowest self.new.of 64 72 result }
    {
        self.settle(p, u64::MAX);
        self.lowest(64)
    }
}
