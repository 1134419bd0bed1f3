// The survey of the messages: chunks and hints.
ghost use Rattle.std.specs.Prelude.{◌≡◌, ◌<◌, ◌≤◌, length};
ghost use Rattle.batch.specs.Map.{Stretch, FilledIs, Draws, Drawn, CutAt, Starts, ChartedIs, Surveys, Surveyed, Lines, Mapped};

use crate::map::{Chunk, Map};
use heard::place::size_at;
use sorting::sort::sort_first;

#[derive(Clone, Copy)]
pub struct Filled {
    // How many offsets the buffer holds.
    pub n: usize,
    // Where the messages held end.
    pub over: usize,
}

#[derive(Clone, Copy)]
pub struct Charted {
    pub chunk: Chunk,
    // How many messages it has.
    pub n: usize,
}

// The messages from `from` on, as many as the buffer holds.
fn fill(s: &[u8], from: usize, stop: usize, buf: &mut [usize; 6000]) -> Filled
    requires { Stretch s.now from stop × (length buf.old ≡ 6000) }
    ensures { FilledIs s.now from stop buf.new result }
{
    let mut n = 0;
    let mut at = from;
    while at < stop {
        if n == 6000 {
            return Filled { n, over: at };
        }
        let size = size_at(s, at);
        buf[n] = at;
        n += 1;
        at += size;
    }
    Filled { n, over: at }
}

// Each `every`th of the first n, from `first` on, becomes a hint: how many hints there are then.
fn draw(
    buf: &[usize; 6000],
    n: usize,
    first: usize,
    every: usize,
    hints: &mut [usize; 960],
    held: usize,
) -> usize
    requires { Draws buf.now n every hints.old held }
    ensures { Drawn buf.now n hints.old held hints.new result }
{
    let mut r = held;
    for i in (first..n).step_by(every) {
        if r == 960 {
            return r;
        }
        hints[r] = buf[i];
        r += 1;
    }
    r
}

// Where a chunk is cut in two. One whose middle message is the same when sorted most likely ascends: it is not cut, so that
// its messages are met in order.
fn cut_at(at: usize, mid: usize, sorted: usize) -> usize
    ensures { CutAt at mid result }
{
    if mid == sorted {
        return at;
    }
    mid
}

// The chunk that starts at `at`: its messages stand in the buffer then, in message order.
fn chart(s: &[u8], stop: usize, at: usize, buf: &mut [usize; 6000]) -> Charted
    requires { Starts s.now stop at buf.old }
    ensures { ChartedIs s.now stop at buf.new result }
{
    let f = fill(s, at, stop, buf);
    let n = f.n;
    let mid = buf[n / 2];
    sort_first(s, &mut buf[..], n);
    let cut = cut_at(at, mid, buf[n / 2]);
    Charted {
        chunk: Chunk {
            from: at,
            mid: cut,
            over: f.over,
            least: buf[0],
            most: buf[n - 1],
        },
        n,
    }
}

// The chunks, and each `every`th message of each as a hint: how many hints there are.
fn chunks(s: &[u8], stop: usize, every: usize, map: &mut Map, buf: &mut [usize; 6000]) -> usize
    requires { Surveys s.now stop map.old buf.old × (1 ≤ every) × (every < 4294967296) }
    ensures { Surveyed s.now stop map.new buf.new result }
{
    let mut at = 8;
    let mut held = 0;
    for c in 0..112 {
        if stop <= at {
            return held;
        }
        let charted = chart(s, stop, at, buf);
        map.chunks[c] = charted.chunk;
        held = draw(
            buf,
            charted.n,
            c * 7919 % every,
            every,
            &mut map.hints,
            held,
        );
        at = charted.chunk.over;
    }
    held
}

// The hints in message order, with their number and how many a batch may reach over.
fn line_up(s: &[u8], stop: usize, map: &mut Map, held: usize, step: usize)
    requires { Lines s.now stop map.old held }
    ensures { Mapped s.now stop map.new }
{
    sort_first(s, &mut map.hints[..], held);
    map.held = held;
    map.step = step;
}

// The survey of `count` messages up to `stop`.
pub fn survey(s: &[u8], stop: usize, count: usize, map: &mut Map, buf: &mut [usize; 6000])
    requires { Surveys s.now stop map.old buf.old }
    ensures { Mapped s.now stop map.new × (length buf.new ≡ 6000) }
{
    if count <= 6000 {
        return;
    }
    if 1000000000000 <= count {
        return;
    }
    let every = count / 800 + 1;
    let held = chunks(s, stop, every, map, buf);
    line_up(s, stop, map, held, 5100 / every);
}
