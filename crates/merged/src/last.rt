// The last deltas merged and written: measured first unless they surely fit, so that nothing is written where not all
// of it fits.
ghost use Rattle.std.specs.Prelude.{◌≡◌, ◌≤◌, length};
ghost use Rattle.body.specs.declared.tag.Form.TheVariants.{Delta};
ghost use Rattle.item.specs.Write.{plus_all, writes, zero};
ghost use Rattle.walk.specs.Walk.{output_of, whole_out};
ghost use Rattle.cursors.specs.Walk.{Starts, remains};
ghost use Rattle.merged.specs.Place.{Stored, last_merged};

use crate::lengths::sum_lengths;
use crate::place::place_all;
use crate::put::put_all;
use cursors::runs::Walk;
use item::sink::Counts;

// The counts of the merge, by a walk of its own.
fn measure(mut walk: Walk) -> Counts
    requires { Starts walk }
    ensures { result ≡ plus_all Delta zero (remains walk.entry) }
{
    let mut nothing = [0u8; 1];
    put_all(&mut walk, &mut nothing)
}

// The merge, which has at most so many bytes, if out has room for all of it; else nothing is written.
// Kept: as in `walk`, measured first and then written, over another walk; a closure that writes would be called under two outputs.
fn put_whole(walk: &mut Walk, most: usize, out: &mut [u8]) -> Option<Counts>
    requires { Starts walk.old × (length (writes Delta (remains walk.old)) ≤ most) }
    ensures { (result ≡ output_of Delta (remains walk.old) (length out.old)) × (out.new ≡ whole_out Delta (remains walk.old) out.old) }
{
    if most <= out.len() {
        return Some(put_all(walk, out));
    }
    let counts = measure(*walk);
    let len = counts.len;
    if out.len() < len {
        return None;
    }
    put_all(walk, out);
    Some(counts)
}

// The last d of the n deltas of these lengths, merged, earliest first.
pub fn merged_last(
    store: &[u8],
    lengths: [u32; 64],
    n: usize,
    d: usize,
    out: &mut [u8],
) -> Option<Counts>
    requires { Stored store.now lengths n × (d ≤ n) }
    ensures { (result ≡ output_of Delta (last_merged store.now lengths n d) (length out.old)) × (out.new ≡ whole_out Delta (last_merged store.now lengths n d) out.old) }
{
    let places = place_all(lengths, n);
    let most = sum_lengths(lengths, n - d, n);
    let mut walk = Walk::new(store, &places.at, &places.ends, n - d, n);
    put_whole(&mut walk, most, out)
}
