// A turn of the walk over two runs, for difference, merge and application alike: whose item goes first, by key.
ghost use Rattle.item.specs.Reading.{Ready};
ghost use Rattle.turn.specs.Turn.{TurnIs};

use field::key::key_compare;
use item::place::Entry;
use item::reading::Run;
use std::cmp::Ordering;

#[derive(Clone, Copy)]
pub enum Side {
    Left,
    Right,
}

#[derive(Clone, Copy)]
pub enum Turn {
    // The other side has run out; this one may still have fields.
    Over(Side),
    Left(Entry),
    Right(Entry),
    Both(Entry, Entry),
}

// The turn where the one run stands at i and the other at j.
pub fn take_turn(a: Run, i: usize, b: Run, j: usize) -> Turn
    requires { Ready a.reading a.bytes.now i × Ready b.reading b.bytes.now j }
    ensures { TurnIs a.entry.reading a.entry.bytes.now i b.entry.reading b.entry.bytes.now j result }
{
    let Some(x) = a.read(i) else {
        return Turn::Over(Side::Right);
    };
    let Some(y) = b.read(j) else {
        return Turn::Over(Side::Left);
    };
    let p = x.key;
    let q = y.key;
    match key_compare(a.bytes, p, b.bytes, q) {
        Ordering::Less => Turn::Left(x),
        Ordering::Equal => Turn::Both(x, y),
        Ordering::Greater => Turn::Right(y),
    }
}
