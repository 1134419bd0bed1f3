// How many items a delta announces and withdraws: a reader is made, and stepped to the end.
ghost use Rattle.std.specs.Prelude.{◌≡◌};
ghost use Rattle.reader.specs.Count.{tally_of};
ghost use Rattle.reader.specs.Counting.{Countable, plus_tag};

use crate::DeltaReader;
use field::head::Field;
use payload::{announces, withdraws};

#[derive(Clone, Copy)]
pub struct Tally {
    pub announced: usize,
    pub withdrawn: usize,
}

// The counts with one field more, of this tag.
fn plus(tally: Tally, tag: u8) -> Tally
    requires { Countable tally }
    ensures { result ≡ plus_tag tally tag }
{
    Tally {
        announced: tally.announced + usize::from(announces(tag)),
        withdrawn: tally.withdrawn + usize::from(withdraws(tag)),
    }
}

// The counts of a delta's fields, up to one that is cut short.
pub fn count(delta: &[u8]) -> Tally
    ensures { result ≡ tally_of delta.now }
{
    let mut reader = DeltaReader::new(delta);
    let mut tally = Tally {
        announced: 0,
        withdrawn: 0,
    };
    while let Field::Whole { tag, .. } = reader.next() {
        tally = plus(tally, tag);
    }
    tally
}
