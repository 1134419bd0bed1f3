// Whether a history, lent with its stores, is well formed: all others get refusal 7.
ghost use Rattle.std.specs.Prelude.{◌≡◌, ◌≤◌, take};
ghost use Rattle.past.specs.WellFormed.{is_good, good_keep, in_range, good_serial, good_start, well_formed};
ghost use Rattle.history.specs.Check.{good_state, good_snapshot, good_runs, good_deltas};

use body::tag::Form;
use delta::admit::within_limit;
use past::state::History;
use verdict::check::check;

// Whether keep is 1 to 64.
pub fn good_keep(keep: u32) -> bool
    ensures { result ≡ good_keep keep }
{
    1 <= keep && keep <= 64
}

// Whether keep and n are in range.
fn in_range(history: History) -> bool
    ensures { result ≡ in_range history }
{
    good_keep(history.keep) && history.n <= history.keep
}

// Inactive or n = 0: whether F is the start serial.
fn good_serial(history: History) -> bool
    ensures { result ≡ good_serial history }
{
    if history.active && history.n != 0 {
        return true;
    }
    history.newest.0 == history.start.0
}

// Inactive: whether nothing is held.
fn good_start(history: History) -> bool
    ensures { result ≡ good_start history }
{
    history.active || history.n == 0 && history.snapshot == 0
}

// Whether the state is well formed by itself.
fn good_state(history: History) -> bool
    ensures { result ≡ good_state history }
{
    in_range(history) && good_serial(history) && good_start(history)
}

// Whether s is good.
fn is_good(form: Form, s: &[u8]) -> bool
    ensures { result ≡ is_good form s.now }
{
    check(form, s).is_ok()
}

// Whether the first n bytes of the snapshot store are a good snapshot.
fn good_snapshot(n: usize, snapshots: &[u8]) -> bool
    ensures { result ≡ good_snapshot n snapshots.now }
{
    within_limit(Form::Snapshot, snapshots)
        && n <= snapshots.len()
        && is_good(Form::Snapshot, &snapshots[..n])
}

// Whether n deltas of these lengths lie one behind the other in the delta store, each good.
fn good_runs(lens: &[u32; 64], n: usize, deltas: &[u8]) -> bool
    requires { n ≤ 64 }
    ensures { result ≡ good_runs (take n lens.now) deltas.now }
{
    let mut from = 0;
    for k in 0..n {
        let len = lens[k] as usize;
        if deltas.len() - from < len {
            return false;
        }
        let to = from + len;
        if !is_good(Form::Delta, &deltas[from..to]) {
            return false;
        }
        from = to;
    }
    true
}

// The same, and whether the store is within its length limit.
fn good_deltas(lens: &[u32; 64], n: usize, deltas: &[u8]) -> bool
    requires { n ≤ 64 }
    ensures { result ≡ good_deltas (take n lens.now) deltas.now }
{
    within_limit(Form::Delta, deltas) && good_runs(lens, n, deltas)
}

// Whether a history, lent with its stores, is well formed. Inlined: a call would copy the history.
#[inline(always)]
pub fn well_formed(history: History, snapshots: &[u8], deltas: &[u8]) -> bool
    ensures { result ≡ well_formed history snapshots.now deltas.now }
{
    good_state(history)
        && good_snapshot(history.snapshot as usize, snapshots)
        && good_deltas(&history.deltas, history.n as usize, deltas)
}
