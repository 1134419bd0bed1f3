// The full answer as messages.
ghost use Rattle.std.specs.Prelude.{◌≡◌, true, length};
ghost use Rattle.past.specs.Store.{held_snapshot};
ghost use Rattle.past.specs.WellFormed.{well_formed};
ghost use Rattle.wire.specs.Answer.{all_new, frame_of, data_plan, sent_at, out_at, full_plan};
ghost use Rattle.wire.specs.Put.{Held};

use crate::frame::frame_of;
use crate::query::{most_of, sent_of};
use crate::sent::{Sent, refused};
use crate::snapshot::put_snapshot;
use delta::refusal::Refusal;
use history::well_formed::well_formed;
use message::version::Version;
use past::state::History;
use serial::timing::Timing;

// The held snapshot.
fn send_all(
    version: Version,
    history: History,
    times: Timing,
    snapshots: &[u8],
    out: &mut [u8],
) -> Sent
    requires { Held history snapshots.now }
    ensures { (result ≡ sent_at (data_plan version (frame_of history times) (all_new (held_snapshot history snapshots.now))) (length out.old)) × (out.new ≡ out_at (data_plan version (frame_of history times) (all_new (held_snapshot history snapshots.now))) out.old) }
{
    let frame = frame_of(history, times);
    let held = history.snapshot as usize;
    let most = most_of(version, held);
    let writing = put_snapshot(version, frame, &snapshots[0..held], most, out);
    sent_of(frame, writing)
}

// The messages that announce the held snapshot.
pub fn full_messages(
    version: Version,
    history: History,
    times: Timing,
    snapshots: &[u8],
    deltas: &[u8],
    out: &mut [u8],
) -> Sent
    ensures { (result ≡ sent_at (full_plan version history times snapshots.now deltas.now) (length out.old)) × (out.new ≡ out_at (full_plan version history times snapshots.now deltas.now) out.old) }
{
    if !well_formed(history, snapshots, deltas) {
        return refused(Refusal::IllFormed);
    }
    send_all(version, history, times, snapshots, out)
}
