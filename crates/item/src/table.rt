// The merge table: the earlier change lies in a, the later one in b.
ghost use Rattle.std.specs.Prelude.{◌≡◌};
ghost use Rattle.order.specs.Comparison.{bytes};
ghost use Rattle.change.specs.Change.{replace};
ghost use Rattle.change.specs.Merge.{table};
ghost use Rattle.item.specs.Place.{PartFits, ActFits, part_in, change_in, Holds};

use crate::place::{Act, Part};
use number::compare::compare;
use std::cmp::Ordering;

// Nothing if the former value is the new one, else an update.
fn replaced(a: &[u8], p: Part, b: &[u8], n: Part) -> Option<Act>
    requires { PartFits a.now p × PartFits b.now n }
    ensures { Holds a.now b.now (replace bytes (part_in a.now p) (part_in b.now n)) result }
{
    let p_from = p.from;
    let p_to = p.to;
    let n_from = n.from;
    let n_to = n.to;
    match compare(&a[p_from..p_to], &b[n_from..n_to]) {
        Ordering::Equal => None,
        Ordering::Less | Ordering::Greater => Some(Act::Update(p, n)),
    }
}

// What is left of a key in both: the former value is the earlier change's, the new value the later one's.
pub fn merged(a: &[u8], earlier: Act, b: &[u8], later: Act) -> Option<Act>
    requires { ActFits a.now a.now earlier × ActFits b.now b.now later }
    ensures { Holds a.now b.now (table bytes (change_in a.now a.now earlier) (change_in b.now b.now later)) result }
{
    match earlier {
        Act::Announce(_) => match later {
            Act::Announce(n) => Some(Act::Announce(n)),
            Act::Withdraw(_) => None,
            Act::Update(_, n) => Some(Act::Announce(n)),
        },
        Act::Withdraw(p) => match later {
            Act::Announce(n) => replaced(a, p, b, n),
            Act::Withdraw(_) => Some(Act::Withdraw(p)),
            Act::Update(_, n) => replaced(a, p, b, n),
        },
        Act::Update(p, _) => match later {
            Act::Announce(n) => Some(Act::Update(p, n)),
            Act::Withdraw(_) => Some(Act::Withdraw(p)),
            Act::Update(_, n) => replaced(a, p, b, n),
        },
    }
}
