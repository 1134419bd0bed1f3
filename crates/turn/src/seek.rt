// The run of a snapshot's items that stand below a delta's next item: it stays as it lies.
ghost use Rattle.std.specs.Prelude.{◌≡◌, ◌+◌, ◌<◌, length};
ghost use Rattle.number.specs.Number.{two_at};
ghost use Rattle.item.specs.declared.reading.Reading.TheVariants.{Announced, Changes};
ghost use Rattle.item.specs.Reading.{Ready};
ghost use Rattle.turn.specs.Seek.{Bounds, Seeks};

use item::front::front_in;
use number::{two_at, word_at};

// Where a search stands, and how many items it has passed.
#[derive(Clone, Copy)]
pub struct Sought {
    pub at: usize,
    pub count: usize,
}

// No more than the front of the delta's item at j; where there is none, above each front.
pub fn bound_at(delta: &[u8], j: usize) -> usize
    requires { Ready Changes delta.now j }
    ensures { Bounds delta.now j result }
{
    if delta.len() <= j {
        return 18446744073709551615;
    }
    if delta.len() - j < 11 {
        return 0;
    }
    front_in(delta[j] / 16, word_at(delta, j + 3))
}

// The size of a snapshot's field. An origin has 26 bytes: the next field does not wait for its length.
fn size_at(s: &[u8], at: usize) -> usize
    requires { Ready Announced s.now at × (at < length s.now) }
    ensures { (result ≡ 3 + two_at s.now (at + 1)) × (result < 65539) }
{
    if s[at] == 1 {
        return 26;
    }
    3 + two_at(s, at + 1)
}

// Past the items from `start` on whose fronts are below a bound.
// Kept: as `seek_changes`, but that a delta's tag also says what to count; one loop for both would ask it of each field.
pub fn seek(s: &[u8], start: usize, bound: usize) -> Sought
    requires { Ready Announced s.now start }
    ensures { Seeks s.now start bound result.at result.count }
{
    let mut at = start;
    let mut count = 0;
    while 11 <= s.len() - at {
        if bound <= front_in(s[at], word_at(s, at + 3)) {
            return Sought { at, count };
        }
        at += size_at(s, at);
        count += 1;
    }
    Sought { at, count }
}
