// The walk over two runs: both read as changes, merged, and written. A difference is the merge of everything old
// withdrawn with everything new announced; an application that of everything held announced with the delta.
ghost use Rattle.std.specs.Prelude.{◌≡◌, length, drop};
ghost use Rattle.std.proofs.lemmas.List.Edits.{sets};
ghost use Rattle.item.specs.Place.{item_in};
ghost use Rattle.item.specs.Reading.{read_as, Ready};
ghost use Rattle.item.specs.Write.{Countable, plus_item, plus_all, field_as, writes, zero};
ghost use Rattle.walk.specs.Walk.{EntryIn, both_of, Passed, Sized, Sizes, Runs, merged_of, StepIs, output_of, whole_out};

use crate::pass::{Stand, put_pass};
use body::tag::Form;
use item::place::Entry;
use item::reading::{Reading, Run};
use item::sink::{Counts, put_item};
use item::table::merged;
use std::ops::ControlFlow;
use turn::turn::{Side, Turn, take_turn};

// An item that one side alone has.
fn put_one(form: Form, s: &[u8], x: Entry, out: &mut [u8], counts: Counts) -> Counts
    requires { EntryIn s.now x × Countable counts }
    ensures { (result ≡ plus_item form counts (item_in s.now s.now x.key x.act)) × (out.new ≡ sets out.old counts.len (field_as form (item_in s.now s.now x.key x.act))) }
{
    put_item(form, s, x.key, x.act, s, out, counts)
}

// What is left of an item that both sides have.
fn put_both(
    form: Form,
    a: &[u8],
    x: Entry,
    b: &[u8],
    y: Entry,
    out: &mut [u8],
    counts: Counts,
) -> Counts
    requires { EntryIn a.now x × (EntryIn b.now y × Countable counts) }
    ensures { (result ≡ plus_all form counts (both_of a.now x b.now y)) × (out.new ≡ sets out.old counts.len (writes form (both_of a.now x b.now y))) }
{
    match merged(a, x.act, b, y.act) {
        None => counts,
        Some(act) => put_item(form, a, x.key, act, b, out, counts),
    }
}

// What one side still has, once the other has run out.
fn put_rest(form: Form, run: Run, from: usize, out: &mut [u8], counts: Counts) -> Counts
    requires { Ready run.reading run.bytes.now from × Passed counts from (length run.bytes.now) }
    ensures { (result ≡ plus_all form counts (read_as run.entry.reading (drop from run.entry.bytes.now))) × (out.new ≡ sets out.old counts.len (writes form (read_as run.entry.reading (drop from run.entry.bytes.now)))) }
{
    let mut at = from;
    let mut sum = counts;
    while let Some(x) = run.read(at) {
        sum = put_one(form, run.bytes, x, out, sum);
        at = x.next;
    }
    sum
}

// One turn, written: where the walk stands then, or the side that may still have fields where the other has run out.
fn put_turn(form: Form, a: Run, b: Run, stand: Stand, out: &mut [u8]) -> ControlFlow<Side, Stand>
    requires { Ready a.reading a.bytes.now stand.left × (Ready b.reading b.bytes.now stand.right × Countable stand.counts) }
    ensures { StepIs form a.entry.reading a.entry.bytes.now stand.left b.entry.reading b.entry.bytes.now stand.right stand.counts out.old out.new result }
{
    let Stand {
        left,
        right,
        counts,
    } = stand;
    match take_turn(a, left, b, right) {
        Turn::Over(side) => ControlFlow::Break(side),
        Turn::Left(x) => ControlFlow::Continue(Stand {
            left: x.next,
            right,
            counts: put_one(form, a.bytes, x, out, counts),
        }),
        Turn::Right(y) => ControlFlow::Continue(Stand {
            left,
            right: y.next,
            counts: put_one(form, b.bytes, y, out, counts),
        }),
        Turn::Both(x, y) => ControlFlow::Continue(Stand {
            left: x.next,
            right: y.next,
            counts: put_both(form, a.bytes, x, b.bytes, y, out, counts),
        }),
    }
}

// One turn, written; behind it what needs no turn is passed.
fn put_step(form: Form, a: Run, b: Run, stand: Stand, out: &mut [u8]) -> ControlFlow<Side, Stand>
    requires { Ready a.reading a.bytes.now stand.left × (Ready b.reading b.bytes.now stand.right × (Countable stand.counts × Sized a.bytes.now b.bytes.now)) }
    ensures { StepIs form a.entry.reading a.entry.bytes.now stand.left b.entry.reading b.entry.bytes.now stand.right stand.counts out.old out.new result }
{
    let next = put_turn(form, a, b, stand, out)?;
    ControlFlow::Continue(put_pass(form, a, b, next, out))
}

// The merge of two runs, as far as out has room; its counts whether it has room or not.
pub fn put_merge(form: Form, a: Run, b: Run, out: &mut [u8]) -> Counts
    requires { Runs a.reading a.bytes.now b.reading b.bytes.now }
    ensures { (result ≡ plus_all form zero (merged_of a.entry b.entry)) × (out.new ≡ sets out.old 0 (writes form (merged_of a.entry b.entry))) }
{
    let mut stand = Stand {
        left: 0,
        right: 0,
        counts: Counts {
            len: 0,
            announced: 0,
            withdrawn: 0,
        },
    };
    let side = loop {
        match put_step(form, a, b, stand, out) {
            ControlFlow::Break(side) => break side,
            ControlFlow::Continue(next) => stand = next,
        }
    };
    let Stand {
        left,
        right,
        counts,
    } = stand;
    match side {
        Side::Left => put_rest(form, a, left, out, counts),
        Side::Right => put_rest(form, b, right, out, counts),
    }
}

// The counts of the merge of two runs.
pub fn measure(form: Form, a: Run, b: Run) -> Counts
    requires { Runs a.reading a.bytes.now b.reading b.bytes.now }
    ensures { result ≡ plus_all form zero (merged_of a.entry b.entry) }
{
    let mut nothing = [0u8; 1];
    put_merge(form, a, b, &mut nothing)
}

// The size of a good run: what it says is as long in either form.
// Kept: apart from `Run`, since a slice in the field of a struct comes without the bounds of its bytes.
fn size_of(reading: Reading, s: &[u8]) -> usize
    requires { Ready reading s.now 0 }
    ensures { Sizes reading s.now result }
{
    s.len()
}

// The merge of two runs, if out has room for all of it; else nothing is written. It is never longer than both together:
// where out is as long as that, it is written at once.
pub fn put_whole(form: Form, a: Run, b: Run, out: &mut [u8]) -> Option<Counts>
    requires { Runs a.reading a.bytes.now b.reading b.bytes.now }
    ensures { (result ≡ output_of form (merged_of a.entry b.entry) (length out.old)) × (out.new ≡ whole_out form (merged_of a.entry b.entry) out.old) }
{
    if size_of(a.reading, a.bytes) + size_of(b.reading, b.bytes) <= out.len() {
        return Some(put_merge(form, a, b, out));
    }
    let counts = measure(form, a, b);
    if out.len() < counts.len {
        return None;
    }
    put_merge(form, a, b, out);
    Some(counts)
}
