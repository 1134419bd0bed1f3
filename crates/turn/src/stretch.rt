// The run of a delta's items below a bound: where no other delta has an item below it, it is merged as it lies.
ghost use Rattle.std.specs.Prelude.{◌≡◌, ◌+◌, ◌<◌, ◌≤◌, length};
ghost use Rattle.number.specs.Number.{two_at};
ghost use Rattle.item.specs.declared.reading.Reading.TheVariants.{Changes};
ghost use Rattle.item.specs.Reading.{Ready};
ghost use Rattle.turn.specs.Stretch.{front_at, Stretches};

use item::front::front_in;
use number::{two_at, word_at};
use payload::withdraws;

// Where it ends, and how many of its items announce and withdraw.
#[derive(Clone, Copy)]
pub struct Stretch {
    pub to: usize,
    pub announced: usize,
    pub withdrawn: usize,
}

// The front of the item at a place.
fn change_front(s: &[u8], at: usize) -> usize
    requires { at + 11 ≤ length s.now }
    ensures { result ≡ front_at s.now at }
{
    front_in(s[at] / 16, word_at(s, at + 3))
}

// The size of a delta's field. An origin has 26 bytes: the next field does not wait for its length.
fn change_size(s: &[u8], at: usize) -> usize
    requires { Ready Changes s.now at × (at < length s.now) }
    ensures { (result ≡ 3 + two_at s.now (at + 1)) × (result < 65539) }
{
    if s[at] == 0x11 {
        return 26;
    }
    if s[at] == 0x12 {
        return 26;
    }
    3 + two_at(s, at + 1)
}

// Past the items from `start` on whose fronts are below a bound.
pub fn seek_changes(s: &[u8], start: usize, bound: usize) -> Stretch
    requires { Ready Changes s.now start }
    ensures { Stretches s.now start bound result.to result.announced result.withdrawn }
{
    let mut at = start;
    let mut announced = 0;
    let mut withdrawn = 0;
    while 11 <= s.len() - at {
        if bound <= change_front(s, at) {
            return Stretch {
                to: at,
                announced,
                withdrawn,
            };
        }
        let gone = usize::from(withdraws(s[at]));
        announced += 1 - gone;
        withdrawn += gone;
        at += change_size(s, at);
    }
    Stretch {
        to: at,
        announced,
        withdrawn,
    }
}
