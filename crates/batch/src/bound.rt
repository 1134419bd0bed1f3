// Where a batch may end: at a hint, so that it fits the buffer. That is for speed alone.
ghost use Rattle.std.specs.Prelude.{◌≡◌, ◌≤◌};
ghost use Rattle.heard.specs.Place.{Payload};
ghost use Rattle.batch.specs.Next.{is_above};
ghost use Rattle.batch.specs.Keep.{Bound};
ghost use Rattle.batch.specs.Map.{Hinted, Mapped, Tops, HintAt};

use crate::map::Map;
use heard::compare::is_before;

// Whether a message is behind `low`.
fn is_behind(s: &[u8], low: usize, at: usize) -> bool
    requires { Bound s.now low × Payload s.now at }
    ensures { result ≡ is_above s.now low at }
{
    if low == 0 {
        return true;
    }
    is_before(s, low, at)
}

// The first of n hints behind `low`, where they ascend.
// Kept: `partition_point` asks that its closure may be called on any number, and `is_before` on messages alone.
fn aim(s: &[u8], stop: usize, hints: &[usize; 960], n: usize, low: usize) -> usize
    requires { Hinted s.now stop hints.now × Bound s.now low × (n ≤ 960) }
    ensures { result ≤ 960 }
{
    let mut a = 0;
    let mut b = n;
    while a < b {
        let m = a + (b - a) / 2;
        let x = hints[m];
        if x == 0 {
            return b;
        }
        if is_behind(s, low, x) {
            b = m;
        } else {
            a = m + 1;
        }
    }
    a
}

// A hint, where it is behind `low`.
fn behind(s: &[u8], stop: usize, low: usize, x: usize) -> usize
    requires { HintAt s.now stop x × Bound s.now low }
    ensures { Tops s.now stop low result }
{
    if x == 0 {
        return 0;
    }
    if is_behind(s, low, x) {
        return x;
    }
    0
}

// The hint at which the next batch may end.
pub(crate) fn bound(s: &[u8], stop: usize, map: &Map, low: usize) -> usize
    requires { Mapped s.now stop map.now × Bound s.now low }
    ensures { Tops s.now stop low result }
{
    let n = map.held;
    if 960 < n {
        return 0;
    }
    let step = map.step;
    if 960 < step {
        return 0;
    }
    let i = aim(s, stop, &map.hints, n, low) + step;
    if n <= i {
        return 0;
    }
    behind(s, stop, low, map.hints[i])
}
