// Runs of a width: each stretch of so many offsets is in message order.
ghost use Rattle.std.specs.Prelude.{◌+◌};
ghost use Rattle.sorting.specs.Sort.{Held, Doubles, RunsAre};

use crate::merge::merge;
use crate::settle::settle_all;
use std::cmp::min;

// Runs of 7.
pub(crate) fn settle_runs(s: &[u8], buf: &mut [usize])
    requires { Held s.now buf.old }
    ensures { RunsAre s.now buf.old 7 buf.new }
{
    for a in (0..buf.len()).step_by(7) {
        let e = min(a + 7, buf.len());
        settle_all(s, &mut buf[a..e]);
    }
}

// Each two runs of the width w become one.
pub(crate) fn merge_runs(s: &[u8], buf: &mut [usize], w: usize, spare: &mut [usize])
    requires { Doubles s.now buf.old w spare.old }
    ensures { RunsAre s.now buf.old (w + w) buf.new }
{
    for a in (0..buf.len()).step_by(w + w) {
        let e = min(a + (w + w), buf.len());
        merge(s, &mut buf[a..e], w, spare);
    }
}
