// Sorting a few offsets: each goes down to its place.
ghost use Rattle.sorting.specs.Sort.{Held, Settles, Settled, SortedIs};

use heard::compare::is_before_by;
use heard::front::front_at;

// The offset at i goes down as far as it is before the one there.
fn settle(s: &[u8], buf: &mut [usize], i: usize)
    requires { Settles s.now buf.old i }
    ensures { Settled s.now buf.old buf.new i }
{
    let x = buf[i];
    let p = front_at(s, x);
    for j in (0..i).rev() {
        let y = buf[j];
        if !is_before_by(s, p, x, front_at(s, y), y) {
            buf[j + 1] = x;
            return;
        }
        buf[j + 1] = y;
    }
    buf[0] = x;
}

// Each offset in turn goes down.
pub(crate) fn settle_all(s: &[u8], buf: &mut [usize])
    requires { Held s.now buf.old }
    ensures { SortedIs s.now buf.old buf.new }
{
    for i in 0..buf.len() {
        settle(s, buf, i);
    }
}
