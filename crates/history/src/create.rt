// Creation.
ghost use Rattle.std.specs.Prelude.{◌≡◌};
ghost use Rattle.past.specs.Create.{fresh_of, create_admitted, create_of};

use crate::well_formed::good_keep;
use body::tag::Form;
use delta::admit::within_limit;
use delta::refusal::Refusal;
use past::create::Created;
use past::state::History;
use serial::Serial;

// Inactive, n = 0, F the start serial, nothing held.
fn fresh(session: u64, keep: u32, start: Serial) -> History
    ensures { result ≡ fresh_of session keep start }
{
    let deltas = [0u32; 64];
    History {
        session,
        keep,
        active: false,
        newest: start,
        start,
        n: 0,
        snapshot: 0,
        deltas,
    }
}

// Refusal 8, then 10 over both stores.
fn admitted(keep: u32, snapshots: &[u8], deltas: &[u8]) -> Result<(), Refusal>
    ensures { result ≡ create_admitted keep snapshots.now deltas.now }
{
    if !good_keep(keep) {
        return Err(Refusal::BadKeep);
    }
    if !within_limit(Form::Snapshot, snapshots) {
        return Err(Refusal::TooLong { argument: 1 });
    }
    if !within_limit(Form::Delta, deltas) {
        return Err(Refusal::TooLong { argument: 2 });
    }
    Ok(())
}

// A fresh history over two stores, which stay as they were.
pub fn create(session: u64, keep: u32, start: Serial, snapshots: &[u8], deltas: &[u8]) -> Created
    ensures { result ≡ create_of session keep start snapshots.now deltas.now }
{
    match admitted(keep, snapshots, deltas) {
        Ok(()) => Created {
            answer: Ok(()),
            history: fresh(session, keep, start),
        },
        Err(refusal) => Created {
            answer: Err(refusal),
            history: fresh(0, 0, Serial(0)),
        },
    }
}
