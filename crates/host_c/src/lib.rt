// The library for C: each call of the crate `host`, exported under its name.
#![tactic(auto)]

ghost use Rattle.std.specs.Prelude.{◌≡◌, length};
ghost use Rattle.serial.specs.Timing.{timing_of};
ghost use Rattle.delta.specs.Answer.{construct_of, construct_out, merge_of, merge_out, apply_of, apply_out};
ghost use Rattle.judge.specs.Answer.{judge_of, judge_out};
ghost use Rattle.past.specs.Create.{create_of};
ghost use Rattle.past.specs.Query.{query_of, query_out};
ghost use Rattle.past.specs.Update.{update_of, update_snapshots, update_deltas};
ghost use Rattle.past.specs.Full.{full_of, notify_of, ready_of};
ghost use Rattle.appliance.specs.QueryAll.{query_all_of, query_all_out};
ghost use Rattle.wire.specs.Answer.{sent_at, out_at, query_plan, full_plan, notify_plan};
ghost use Rattle.host.specs.State.{history_of};
ghost use Rattle.host.specs.Version.{version_of};
ghost use Rattle.host.specs.Sent.{flat_sent};
ghost use Rattle.host.specs.Told.{made_created, made_updated, told_queried, told_full, flat_replied};
ghost use Rattle.host.specs.Flat.{flat_constructed, flat_merged, flat_applied};
ghost use Rattle.host.specs.Judged.{flat_judged};

use host::answer::Answer;
use host::judged::Judged;
use host::sent::Sent;
use host::state::State;
use host::told::{Made, Replies, Told};
use past::notify::Notice;
use serial::timing::Timing;
use serial::{Serial, Session};

#[unsafe(no_mangle)]
pub extern "C" fn taplevung_construct(
    old: &[u8],
    new: &[u8],
    serial: Serial,
    out: &mut [u8],
) -> Answer
    ensures { (result ≡ flat_constructed (construct_of old.now new.now serial (length out.old))) × (out.new ≡ construct_out old.now new.now out.old) }
{
    host::calls::taplevung_construct(old, new, serial, out)
}

#[unsafe(no_mangle)]
pub extern "C" fn taplevung_merge(
    earlier: &[u8],
    later: &[u8],
    serial: Serial,
    out: &mut [u8],
) -> Answer
    ensures { (result ≡ flat_merged (merge_of earlier.now later.now serial (length out.old))) × (out.new ≡ merge_out earlier.now later.now out.old) }
{
    host::calls::taplevung_merge(earlier, later, serial, out)
}

#[unsafe(no_mangle)]
pub extern "C" fn taplevung_apply(snapshot: &[u8], delta: &[u8], out: &mut [u8]) -> Answer
    ensures { (result ≡ flat_applied (apply_of snapshot.now delta.now (length out.old))) × (out.new ≡ apply_out snapshot.now delta.now out.old) }
{
    host::calls::taplevung_apply(snapshot, delta, out)
}

#[unsafe(no_mangle)]
pub extern "C" fn taplevung_judge(
    version: u32,
    snapshot: &[u8],
    messages: &[u8],
    out: &mut [u8],
) -> Judged
    ensures { (result ≡ flat_judged (judge_of (version_of version) snapshot.now messages.now (length out.old))) × (out.new ≡ judge_out (version_of version) snapshot.now messages.now out.old) }
{
    host::calls::taplevung_judge(version, snapshot, messages, out)
}

#[unsafe(no_mangle)]
pub extern "C" fn taplevung_timing(refresh: u32, retry: u32, expire: u32) -> Timing
    ensures { result ≡ timing_of (record { refresh = refresh; retry = retry; expire = expire }) }
{
    host::calls::taplevung_timing(refresh, retry, expire)
}

#[unsafe(no_mangle)]
pub extern "C" fn taplevung_create(
    session: u64,
    keep: u32,
    start: Serial,
    snapshots: &[u8],
    deltas: &[u8],
) -> Made
    ensures { result ≡ made_created (create_of session keep start snapshots.now deltas.now) }
{
    host::calls::taplevung_create(session, keep, start, snapshots, deltas)
}

#[unsafe(no_mangle)]
pub extern "C" fn taplevung_update(
    state: State,
    new: &[u8],
    snapshots: &mut [u8],
    deltas: &mut [u8],
) -> Made
    ensures { (result ≡ made_updated state (update_of (history_of state) new.now snapshots.old deltas.old)) × ((snapshots.new ≡ update_snapshots (history_of state) new.now snapshots.old deltas.old) × (deltas.new ≡ update_deltas (history_of state) new.now snapshots.old deltas.old)) }
{
    host::calls::taplevung_update(state, new, snapshots, deltas)
}

#[unsafe(no_mangle)]
pub extern "C" fn taplevung_query(
    state: State,
    session: Session,
    serial: Serial,
    snapshots: &[u8],
    deltas: &[u8],
    out: &mut [u8],
) -> Told
    ensures { (result ≡ told_queried (query_of (history_of state) session serial snapshots.now deltas.now (length out.old))) × (out.new ≡ query_out (history_of state) session serial snapshots.now deltas.now out.old) }
{
    host::calls::taplevung_query(state, session, serial, snapshots, deltas, out)
}

#[unsafe(no_mangle)]
pub extern "C" fn taplevung_query_all(
    state: State,
    snapshots: &[u8],
    deltas: &[u8],
    queries: &[u8],
    out: &mut [u8],
) -> Replies
    ensures { (result ≡ flat_replied (query_all_of (history_of state) snapshots.now deltas.now queries.now out.old)) × (out.new ≡ query_all_out (history_of state) snapshots.now deltas.now queries.now out.old) }
{
    host::calls::taplevung_query_all(state, snapshots, deltas, queries, out)
}

#[unsafe(no_mangle)]
pub extern "C" fn taplevung_full(state: State, snapshots: &[u8], deltas: &[u8]) -> Told
    ensures { result ≡ told_full (full_of (history_of state) snapshots.now deltas.now) }
{
    host::calls::taplevung_full(state, snapshots, deltas)
}

#[unsafe(no_mangle)]
pub extern "C" fn taplevung_notify(state: State) -> Notice
    ensures { result ≡ notify_of (history_of state) }
{
    host::calls::taplevung_notify(state)
}

#[unsafe(no_mangle)]
pub extern "C" fn taplevung_ready(state: State) -> bool
    ensures { result ≡ ready_of (history_of state) }
{
    host::calls::taplevung_ready(state)
}

#[unsafe(no_mangle)]
pub extern "C" fn taplevung_query_messages(
    version: u32,
    state: State,
    session: Session,
    serial: Serial,
    times: Timing,
    snapshots: &[u8],
    deltas: &[u8],
    out: &mut [u8],
) -> Sent
    ensures { (result ≡ flat_sent (sent_at (query_plan (version_of version) (history_of state) session serial times snapshots.now deltas.now) (length out.old))) × (out.new ≡ out_at (query_plan (version_of version) (history_of state) session serial times snapshots.now deltas.now) out.old) }
{
    host::calls::taplevung_query_messages(
        version, state, session, serial, times, snapshots, deltas, out,
    )
}

#[unsafe(no_mangle)]
pub extern "C" fn taplevung_full_messages(
    version: u32,
    state: State,
    times: Timing,
    snapshots: &[u8],
    deltas: &[u8],
    out: &mut [u8],
) -> Sent
    ensures { (result ≡ flat_sent (sent_at (full_plan (version_of version) (history_of state) times snapshots.now deltas.now) (length out.old))) × (out.new ≡ out_at (full_plan (version_of version) (history_of state) times snapshots.now deltas.now) out.old) }
{
    host::calls::taplevung_full_messages(version, state, times, snapshots, deltas, out)
}

#[unsafe(no_mangle)]
pub extern "C" fn taplevung_notify_message(version: u32, state: State, out: &mut [u8]) -> Sent
    ensures { (result ≡ flat_sent (sent_at (notify_plan (version_of version) (history_of state)) (length out.old))) × (out.new ≡ out_at (notify_plan (version_of version) (history_of state)) out.old) }
{
    host::calls::taplevung_notify_message(version, state, out)
}
