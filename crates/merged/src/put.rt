// Writing the merge of many runs, as far as there is room: item by item, and what one run has below all others as it lies.
ghost use Rattle.std.specs.Prelude.{◌≡◌};
ghost use Rattle.std.proofs.lemmas.List.Edits.{sets};
ghost use Rattle.body.specs.declared.tag.Form.TheVariants.{Delta};
ghost use Rattle.item.specs.Write.{plus_all, writes, zero};
ghost use Rattle.cursors.specs.Walk.{Starts, remains};
ghost use Rattle.merged.specs.Put.{Puts, PutSome, PutNext};

use body::tag::Form;
use cursors::runs::Walk;
use item::copy::copy;
use item::place::Part;
use item::sink::{Counts, put_item};

// The next item of the merge, if one is left: what was counted then.
fn put_next(walk: &mut Walk, out: &mut [u8], counts: Counts) -> Option<Counts>
    requires { Puts walk.old counts }
    ensures { PutNext walk.old walk.new counts out.old out.new result }
{
    let Some((key, act)) = walk.next() else {
        return None;
    };
    let store = walk.store;
    Some(put_item(Form::Delta, store, key, act, store, out, counts))
}

// What one run has below all others, as it lies.
fn put_lone(walk: &mut Walk, out: &mut [u8], counts: Counts) -> Counts
    requires { Puts walk.old counts }
    ensures { PutSome walk.old walk.new counts out.old out.new result }
{
    let lone = walk.pass_lone();
    let start = lone.from;
    let to = lone.to;
    copy(walk.store, Part { from: start, to }, out, counts.len);
    Counts {
        len: counts.len + (to - start),
        announced: counts.announced + lone.announced,
        withdrawn: counts.withdrawn + lone.withdrawn,
    }
}

// The next item, and behind it what one run has below all others.
fn put_step(walk: &mut Walk, out: &mut [u8], counts: Counts) -> Option<Counts>
    requires { Puts walk.old counts }
    ensures { PutNext walk.old walk.new counts out.old out.new result }
{
    let Some(sum) = put_next(walk, out, counts) else {
        return None;
    };
    Some(put_lone(walk, out, sum))
}

// The merge, as far as out has room; its counts whether it has room or not.
pub(crate) fn put_all(walk: &mut Walk, out: &mut [u8]) -> Counts
    requires { Starts walk.old }
    ensures { (result ≡ plus_all Delta zero (remains walk.old)) × (out.new ≡ sets out.old 0 (writes Delta (remains walk.old))) }
{
    let mut counts = Counts {
        len: 0,
        announced: 0,
        withdrawn: 0,
    };
    while let Some(sum) = put_step(walk, out, counts) {
        counts = sum;
    }
    counts
}
