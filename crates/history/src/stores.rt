// The two lent stores: the current snapshot, and the deltas one behind the other.
ghost use Rattle.std.specs.Prelude.{◌≡◌, ◌++◌, ◌+◌, ◌≤◌, length, take, drop};
ghost use Rattle.delta.specs.Answer.{difference_of};
ghost use Rattle.payload.specs.Written.{written_over};
ghost use Rattle.history.specs.Push.{Pushes, laid};

use body::tag::Form;
use item::copy::copy;
use item::place::Part;
use item::reading::{Reading, Run};
use walk::walk::put_merge;

// The len bytes at from go to the start; the bytes past them stay.
fn move_down(s: &mut [u8], from: usize, len: usize)
    requires { from + len ≤ length s.old }
    ensures { s.new ≡ take len (drop from s.old) ++ drop len s.old }
{
    if from == 0 {
        return;
    }
    s.copy_within(from..from + len, 0);
}

// The deltas that stay go to the start of their store, and the difference of two snapshots behind them.
pub(crate) fn push_delta(old: &[u8], new: &[u8], from: usize, kept: usize, deltas: &mut [u8])
    requires { Pushes old.now new.now from kept deltas.old }
    ensures { deltas.new ≡ laid from kept (difference_of old.now new.now) deltas.old }
{
    move_down(deltas, from, kept);
    put_merge(
        Form::Delta,
        Run {
            reading: Reading::Withdrawn,
            bytes: old,
        },
        Run {
            reading: Reading::Announced,
            bytes: new,
        },
        &mut deltas[kept..],
    );
}

// The new snapshot at the start of its store.
pub(crate) fn hold(new: &[u8], snapshots: &mut [u8])
    requires { length new.now ≤ length snapshots.old }
    ensures { snapshots.new ≡ written_over new.now snapshots.old }
{
    let whole = Part {
        from: 0,
        to: new.len(),
    };
    copy(new, whole, snapshots, 0);
}
