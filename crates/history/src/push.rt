// The lengths of the held deltas: the oldest is dropped if n equals keep, and one is added.
ghost use Rattle.std.specs.Prelude.{◌≡◌, ◌-◌, ◌^◌, ◌<◌, ◌≤◌, length};
ghost use Rattle.history.specs.Push.{drops_of, kept_of, lengths_with, Ranged, Grows};

use merged::lengths::sum_lengths;
use past::state::History;
use serial::next;

// The deltas that stay once one is added.
#[derive(Clone, Copy)]
pub struct Kept {
    // The first of them.
    pub first: usize,
    // Where its bytes start.
    pub from: usize,
    // How many bytes they have.
    pub len: usize,
}

// A length that fits the state.
pub(crate) fn narrow(n: usize) -> u32
    requires { n < 2 ^ 32 }
    ensures { result ≡ n }
{
    n as u32
}

// How many deltas are dropped.
fn drops(history: History) -> usize
    ensures { result ≡ drops_of history }
{
    if history.n == history.keep {
        return 1;
    }
    0
}

// The deltas that stay.
pub(crate) fn kept_of(history: History) -> Kept
    requires { Ranged history }
    ensures { result ≡ kept_of history }
{
    let first = drops(history);
    let lens = history.deltas;
    let from = sum_lengths(lens, 0, first);
    let len = sum_lengths(lens, first, history.n as usize);
    Kept { first, from, len }
}

// The lengths from `first` up to n at the start, then one more.
fn push_length(lens: [u32; 64], first: usize, n: usize, len: u32) -> [u32; 64]
    requires { (first ≤ n) × ((n ≤ 64) × (n - first < 64)) }
    ensures { (result ≡ lengths_with lens first n len) × (length lens ≡ 64) }
{
    let count = n - first;
    let mut next = [0u32; 64];
    for i in 0..count {
        next[i] = lens[first + i];
    }
    next[count] = len;
    next
}

// The state once a snapshot and a delta of these lengths are held.
pub(crate) fn grown(history: History, first: usize, snapshot: usize, delta: usize) -> History
    requires { Ranged history × ((first ≡ drops_of history) × ((snapshot < 2 ^ 32) × (delta < 2 ^ 32))) }
    ensures { Grows history first snapshot delta result }
{
    let lens = history.deltas;
    let n = history.n as usize;
    let deltas = push_length(lens, first, n, narrow(delta));
    let newest = next(history.newest);
    let start = history.start;
    History {
        session: history.session,
        keep: history.keep,
        active: true,
        newest,
        start,
        n: narrow(n - first + 1),
        snapshot: narrow(snapshot),
        deltas,
    }
}
