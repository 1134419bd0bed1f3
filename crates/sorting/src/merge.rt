// Merging two runs of offsets, each in message order, that stand one behind the other.
ghost use Rattle.std.specs.Prelude.{◌≡◌, length};
ghost use Rattle.sorting.specs.Sort.{Weaves, Woven, Merges, SortedIs};

use heard::compare::{is_before, is_before_by};
use heard::front::front_at;

// Offsets, copied.
// Kept: `copy_from_slice` calls memcpy, whose first call takes 2.8 KB of stack where a program binds it late: that took `judge`,
// deep in a sort, from 64,727 bytes to 67,599, past 64 KB.
fn copy(from: &[usize], to: &mut [usize])
    requires { length to.old ≡ length from.now }
    ensures { to.new ≡ from.now }
{
    for k in 0..from.len() {
        to[k] = from[k];
    }
}

// The first m of buf and a copy of the others are merged from the back: how many of the copy are left, which belong to the front.
// Kept: two places, of which each turn lowers one.
fn weave(s: &[u8], buf: &mut [usize], m: usize, right: &[usize]) -> usize
    requires { Weaves s.now buf.old m right.now }
    ensures { Woven s.now buf.old m right.now buf.new result }
{
    let mut i = m;
    let mut j = right.len();
    let mut x = buf[i - 1];
    let mut y = right[j - 1];
    let mut p = front_at(s, x);
    let mut q = front_at(s, y);
    loop {
        if is_before_by(s, q, y, p, x) {
            i -= 1;
            buf[i + j] = x;
            if i == 0 {
                return j;
            }
            x = buf[i - 1];
            p = front_at(s, x);
            continue;
        }
        j -= 1;
        buf[i + j] = y;
        if j == 0 {
            return 0;
        }
        y = right[j - 1];
        q = front_at(s, y);
    }
}

// The first m and the others, if there are any, each in message order, become one run; `spare` has room for the others.
pub(crate) fn merge(s: &[u8], buf: &mut [usize], m: usize, spare: &mut [usize])
    requires { Merges s.now buf.old m spare.old }
    ensures { SortedIs s.now buf.old buf.new }
{
    if m == 0 {
        return;
    }
    if buf.len() <= m {
        return;
    }
    if is_before(s, buf[m], buf[m - 1]) {
        let n = buf.len() - m;
        copy(&buf[m..], &mut spare[..n]);
        let r = weave(s, buf, m, &spare[..n]);
        copy(&spare[..r], &mut buf[..r]);
    }
}
