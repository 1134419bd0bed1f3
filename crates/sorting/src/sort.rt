// Sorting offsets into message order: blocks of 448, each merged into those before it.
ghost use Rattle.std.specs.Prelude.{◌≤◌, length, take};
ghost use Rattle.sorting.specs.Sort.{Held, Ascends, Block, Extends, SortedIs, FirstSorted};

use crate::merge::merge;
use crate::runs::{merge_runs, settle_runs};
use heard::compare::is_before;
use std::cmp::min;

// Whether they are in order already.
fn ascends(s: &[u8], buf: &[usize]) -> bool
    requires { Held s.now buf.now }
    ensures { Ascends s.now buf.now result }
{
    for i in 1..buf.len() {
        if is_before(s, buf[i], buf[i - 1]) {
            return false;
        }
    }
    true
}

// At most 448: in runs of 7, and these merged to longer ones.
// Kept: the width doubles.
fn sort_block(s: &[u8], buf: &mut [usize], spare: &mut [usize])
    requires { Block s.now buf.old spare.old }
    ensures { SortedIs s.now buf.old buf.new }
{
    settle_runs(s, buf);
    let mut w = 7;
    while w < buf.len() {
        merge_runs(s, buf, w, spare);
        w += w;
    }
}

// The first m are in order: the others are sorted and merged into them.
fn extend(s: &[u8], buf: &mut [usize], m: usize, spare: &mut [usize])
    requires { Extends s.now buf.old m spare.old }
    ensures { SortedIs s.now buf.old buf.new }
{
    sort_block(s, &mut buf[m..], spare);
    merge(s, buf, m, spare);
}

// Offsets in message order.
pub fn sort(s: &[u8], buf: &mut [usize])
    requires { Held s.now buf.old }
    ensures { SortedIs s.now buf.old buf.new }
{
    if ascends(s, buf) {
        return;
    }
    let mut spare = [0usize; 448];
    for m in (0..buf.len()).step_by(448) {
        let e = min(m + 448, buf.len());
        extend(s, &mut buf[..e], m, &mut spare[..]);
    }
}

// The first n in message order.
pub fn sort_first(s: &[u8], buf: &mut [usize], n: usize)
    requires { (n ≤ length buf.old) × Held s.now (take n buf.old) }
    ensures { FirstSorted s.now buf.old n buf.new }
{
    sort(s, &mut buf[..n]);
}
