// Whether a delta can be applied to a snapshot: the first item that cannot is named.
#![tactic(auto)]

ghost use Rattle.std.specs.Prelude.{◌≡◌, [], drop};
ghost use Rattle.std.proofs.Math.Option.{some};
ghost use Rattle.order.specs.Comparison.{bytes};
ghost use Rattle.change.specs.Application.{fits, is_equal};
ghost use Rattle.field.specs.Cells.{cells};
ghost use Rattle.item.specs.Place.{part_in, change_in, PartFits, ActFits};
ghost use Rattle.item.specs.Reading.{Ready};
ghost use Rattle.fit.specs.Fit.{misfit, fit_of};
ghost use Rattle.fit.specs.Fitting.{absent_place, value_place, Pairs, Past, FitStepIs};

use item::place::{Act, Part};
use item::reading::{Reading, Run, read_at};
use number::compare::compare;
use turn::seek::{bound_at, seek};
use turn::turn::{Side, Turn, take_turn};

// Whether two values are equal.
fn equal(a: &[u8], p: Part, b: &[u8], q: Part) -> bool
    requires { PartFits a.now p × PartFits b.now q }
    ensures { result ≡ is_equal (bytes (part_in a.now p) (part_in b.now q)) }
{
    let p_from = p.from;
    let p_to = p.to;
    let q_from = q.from;
    let q_to = q.to;
    compare(&a[p_from..p_to], &b[q_from..q_to]).is_eq()
}

// Whether a change fits where nothing is held.
fn fits_absent(change: Act) -> bool
    ensures { result ≡ absent_place change }
{
    matches!(change, Act::Announce(_))
}

// The value that a change leaves or takes away.
fn value_of(act: Act) -> Part
    ensures { result ≡ value_place act }
{
    match act {
        Act::Announce(n) | Act::Update(_, n) => n,
        Act::Withdraw(p) => p,
    }
}

// Whether a change fits where the value at v is held.
fn fits_held(a: &[u8], v: Part, b: &[u8], change: Act) -> bool
    requires { PartFits a.now v × ActFits b.now b.now change }
    ensures { result ≡ fits bytes (some (part_in a.now v)) (change_in b.now b.now change) }
{
    match change {
        Act::Announce(_) => false,
        Act::Withdraw(p) | Act::Update(p, _) => equal(a, v, b, p),
    }
}

// The rest of a delta where nothing more is held: the first item that does not announce.
fn fit_rest(delta: &[u8], from: usize) -> Option<usize>
    requires { Ready Reading.Changes delta.now from }
    ensures { result ≡ misfit [] from (cells (drop from delta.now)) }
{
    let mut at = from;
    while let Some(y) = read_at(Reading::Changes, delta, at) {
        if !fits_absent(y.act) {
            return Some(at);
        }
        at = y.next;
    }
    None
}

// Past what the snapshot has from i on below the delta's item at j.
fn pass_below(snapshot: &[u8], i: usize, delta: &[u8], j: usize) -> usize
    requires { Pairs snapshot.now i delta.now j }
    ensures { Past snapshot.now i delta.now j result }
{
    let run = seek(snapshot, i, bound_at(delta, j));
    run.at
}

// Where the comparison stands after a turn.
// Kept: three answers; a `ControlFlow` that breaks with a side or a misfit would nest two enums.
#[derive(Clone, Copy)]
pub enum FitStep {
    // One side has run out; this one may still have fields.
    Over(Side),
    // The delta's item cannot be applied.
    Misfit,
    // Both places.
    On(usize, usize),
}

// One turn: the item of the snapshot at i, that of the delta at j, or both.
fn fit_turn(snapshot: &[u8], i: usize, delta: &[u8], j: usize) -> FitStep
    requires { Pairs snapshot.now i delta.now j }
    ensures { FitStepIs snapshot.now i delta.now j result }
{
    let held = Run {
        reading: Reading::Announced,
        bytes: snapshot,
    };
    let changes = Run {
        reading: Reading::Changes,
        bytes: delta,
    };
    match take_turn(held, i, changes, j) {
        Turn::Over(side) => FitStep::Over(side),
        Turn::Left(x) => FitStep::On(x.next, j),
        Turn::Right(y) => {
            let change = y.act;
            if !fits_absent(change) {
                return FitStep::Misfit;
            }
            FitStep::On(i, y.next)
        }
        Turn::Both(x, y) => {
            let held = x.act;
            let change = y.act;
            if !fits_held(snapshot, value_of(held), delta, change) {
                return FitStep::Misfit;
            }
            FitStep::On(x.next, y.next)
        }
    }
}

// One turn, and behind it past what the snapshot has below the delta's next item.
fn fit_step(snapshot: &[u8], i: usize, delta: &[u8], j: usize) -> FitStep
    requires { Pairs snapshot.now i delta.now j }
    ensures { FitStepIs snapshot.now i delta.now j result }
{
    match fit_turn(snapshot, i, delta, j) {
        FitStep::Over(side) => FitStep::Over(side),
        FitStep::Misfit => FitStep::Misfit,
        FitStep::On(p, q) => FitStep::On(pass_below(snapshot, p, delta, q), q),
    }
}

// The place of the first item of a good delta that cannot be applied to a good snapshot, if there is one.
pub fn first_misfit(snapshot: &[u8], delta: &[u8]) -> Option<usize>
    requires { Pairs snapshot.now 0 delta.now 0 }
    ensures { result ≡ fit_of snapshot.now delta.now }
{
    let mut i = 0;
    let mut j = 0;
    let side = loop {
        match fit_step(snapshot, i, delta, j) {
            FitStep::Over(side) => break side,
            FitStep::Misfit => return Some(j),
            FitStep::On(p, q) => {
                i = p;
                j = q;
            }
        }
    };
    if let Side::Left = side {
        return None;
    }
    fit_rest(delta, j)
}
