// Update with a new snapshot.
ghost use Rattle.std.specs.Prelude.{◌≡◌, ◌≤◌, length};
ghost use Rattle.body.specs.declared.tag.Form.TheVariants.{Snapshot};
ghost use Rattle.payload.specs.Limit.{limit};
ghost use Rattle.delta.specs.Answer.{difference_of, counts_of};
ghost use Rattle.past.specs.Store.{held_snapshot};
ghost use Rattle.past.specs.Update.{update_of, update_snapshots, update_deltas};
ghost use Rattle.history.specs.Stage.{Judged, Compares, Accepts, Renews, Extends, Does, Stores, first_of, first_store};

use crate::push::{Kept, grown, kept_of, narrow};
use crate::stores::{hold, push_delta};
use crate::well_formed::well_formed;
use body::tag::Form;
use delta::admit::admit_one;
use delta::refusal::Refusal;
use item::reading::{Reading, Run};
use item::sink::Counts;
use past::state::History;
use past::update::{Update, Updated};
use walk::walk::measure;

// Refusal 7, then 10, 1, 12 and 2 of the new snapshot.
fn admitted(history: History, new: &[u8], snapshots: &[u8], deltas: &[u8]) -> Result<(), Refusal>
    ensures { Judged history new.now snapshots.now deltas.now result }
{
    if !well_formed(history, snapshots, deltas) {
        return Err(Refusal::IllFormed);
    }
    admit_one(Form::Snapshot, new)
}

// The first snapshot becomes current.
fn first(history: History, new: &[u8], snapshots: &mut [u8]) -> Updated
    requires { length new.now ≤ limit Snapshot }
    ensures { (result ≡ first_of history new.now snapshots.old) × (snapshots.new ≡ first_store new.now snapshots.old) }
{
    if snapshots.len() < new.len() {
        return Updated {
            answer: Err(Refusal::StoreFull),
            history,
        };
    }
    hold(new, snapshots);
    Updated {
        answer: Ok(Update::First),
        history: History {
            active: true,
            n: 0,
            snapshot: narrow(new.len()),
            deltas: [0u32; 64],
            ..history
        },
    }
}

// The length and counts of the difference from the held snapshot to the new one.
fn difference(history: History, new: &[u8], snapshots: &[u8]) -> Counts
    requires { Compares history new.now snapshots.now }
    ensures { result ≡ counts_of (difference_of (held_snapshot history snapshots.now) new.now) }
{
    let held = history.snapshot as usize;
    measure(
        Form::Delta,
        Run {
            reading: Reading::Withdrawn,
            bytes: &snapshots[0..held],
        },
        Run {
            reading: Reading::Announced,
            bytes: new,
        },
    )
}

// A change for which both stores have room: both stores.
fn put_change(
    history: History,
    new: &[u8],
    snapshots: &mut [u8],
    deltas: &mut [u8],
    counts: Counts,
    kept: Kept,
)
    requires { Extends history new.now snapshots.old deltas.old counts kept }
    ensures { Stores history new.now snapshots.old deltas.old snapshots.new deltas.new }
{
    let held = history.snapshot as usize;
    push_delta(&snapshots[0..held], new, kept.from, kept.len, deltas);
    hold(new, snapshots);
}

// The delta is added, and the new snapshot becomes current.
fn extend(
    history: History,
    new: &[u8],
    snapshots: &mut [u8],
    deltas: &mut [u8],
    counts: Counts,
    kept: Kept,
) -> Updated
    requires { Extends history new.now snapshots.old deltas.old counts kept }
    ensures { Does history new.now snapshots.old deltas.old result snapshots.new deltas.new }
{
    put_change(history, new, snapshots, deltas, counts, kept);
    let state = grown(history, kept.first, new.len(), counts.len);
    Updated {
        answer: Ok(Update::Changed(counts)),
        history: state,
    }
}

// A later snapshot: unchanged, refused with 9, or a change.
fn later(history: History, new: &[u8], snapshots: &mut [u8], deltas: &mut [u8]) -> Updated
    requires { Renews history new.now snapshots.old deltas.old }
    ensures { Does history new.now snapshots.old deltas.old result snapshots.new deltas.new }
{
    let counts = difference(history, new, snapshots);
    if counts.len == 0 {
        return Updated {
            answer: Ok(Update::Unchanged),
            history,
        };
    }
    let kept = kept_of(history);
    if snapshots.len() < new.len() {
        return Updated {
            answer: Err(Refusal::StoreFull),
            history,
        };
    }
    if deltas.len() - kept.len < counts.len {
        return Updated {
            answer: Err(Refusal::StoreFull),
            history,
        };
    }
    extend(history, new, snapshots, deltas, counts, kept)
}

// A snapshot that is admitted.
fn accept(history: History, new: &[u8], snapshots: &mut [u8], deltas: &mut [u8]) -> Updated
    requires { Accepts history new.now snapshots.old deltas.old }
    ensures { Does history new.now snapshots.old deltas.old result snapshots.new deltas.new }
{
    if history.active {
        return later(history, new, snapshots, deltas);
    }
    first(history, new, snapshots)
}

// A snapshot that is admitted or not.
fn settle(
    history: History,
    new: &[u8],
    snapshots: &mut [u8],
    deltas: &mut [u8],
    answer: Result<(), Refusal>,
) -> Updated
    requires { Judged history new.now snapshots.old deltas.old answer }
    ensures { Does history new.now snapshots.old deltas.old result snapshots.new deltas.new }
{
    if let Err(refusal) = answer {
        return Updated {
            answer: Err(refusal),
            history,
        };
    }
    accept(history, new, snapshots, deltas)
}

// The history, and both stores, after a new snapshot.
pub fn update_with(history: History, new: &[u8], snapshots: &mut [u8], deltas: &mut [u8]) -> Updated
    ensures { (result ≡ update_of history new.now snapshots.old deltas.old) × ((snapshots.new ≡ update_snapshots history new.now snapshots.old deltas.old) × (deltas.new ≡ update_deltas history new.now snapshots.old deltas.old)) }
{
    let answer = admitted(history, new, snapshots, deltas);
    settle(history, new, snapshots, deltas, answer)
}
