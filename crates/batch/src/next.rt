// The next messages in message order.
ghost use Rattle.std.specs.Prelude.{◌≡◌, length};
ghost use Rattle.batch.specs.Next.{NextIs};
ghost use Rattle.batch.specs.Keep.{Told};
ghost use Rattle.batch.specs.Map.{Mapped};

use crate::bound::bound;
use crate::collect::collect;
use crate::map::Map;
use sorting::sort::sort_first;

// Kept: both always stand; an enum of a last batch and another would hold the number in each.
#[derive(Clone, Copy)]
pub struct Batch {
    // How many offsets the buffer holds.
    pub n: usize,
    // Nothing is left behind them.
    pub over: bool,
}

// The next messages up to `stop` behind the one at `low`, in message order; `low` 0 stands before all.
// Kept: `NextIs`, `least_fault` and `settled` of the specs speak of 0 as before all.
pub fn next(s: &[u8], stop: usize, low: usize, map: &Map, buf: &mut [usize; 6000]) -> Batch
    requires { Told s.now stop low × Mapped s.now stop map.now × (length buf.old ≡ 6000) }
    ensures { NextIs s.now stop low buf.new result × (length buf.new ≡ 6000) }
{
    let top = bound(s, stop, map, low);
    let p = collect(s, stop, low, top, map, buf);
    let n = p.n;
    sort_first(s, &mut buf[..], n);
    Batch {
        n,
        over: p.top == 0,
    }
}
