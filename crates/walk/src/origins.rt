// The merge of two deltas while both have origins: an origin has no value, so its field is kept as it lies or dropped.
ghost use Rattle.std.specs.Prelude.{◌≡◌, ◌∷◌, []};
ghost use Rattle.std.proofs.lemmas.List.Edits.{sets};
ghost use Rattle.order.specs.Comparison.{bytes};
ghost use Rattle.body.specs.declared.tag.Form.TheVariants.{Delta};
ghost use Rattle.field.specs.If.{If};
ghost use Rattle.item.specs.declared.reading.Reading.TheVariants.{Changes};
ghost use Rattle.item.specs.Reading.{Ready};
ghost use Rattle.item.specs.Write.{plus_all, writes};
ghost use Rattle.walk.specs.Walk.{Stands, Wrote};
ghost use Rattle.walk.specs.Origins.{origin_of, both_origins, OriginCountable, OriginAt, BothAt, Turns, OriginStepIs};

use crate::pass::Stand;
use item::copy::copy;
use item::place::Part;
use item::sink::Counts;
use number::compare::compare;
use std::cmp::Ordering;

// Whether a delta has an origin at a place. A no decides nothing.
pub fn origin_at(s: &[u8], at: usize) -> bool
    requires { Ready Changes s.now at }
    ensures { If result (OriginAt s.now at) }
{
    if s.len() - at < 26 {
        return false;
    }
    if s[at] == 0x11 {
        return true;
    }
    s[at] == 0x12
}

// Whether both sides have an origin. A no decides nothing.
pub fn both_at(a: &[u8], i: usize, b: &[u8], j: usize) -> bool
    requires { Ready Changes a.now i × Ready Changes b.now j }
    ensures { If result (BothAt a.now i b.now j) }
{
    if !origin_at(a, i) {
        return false;
    }
    origin_at(b, j)
}

// The origin at a place, as it lies.
fn put_origin(s: &[u8], at: usize, out: &mut [u8], counts: Counts) -> Counts
    requires { OriginAt s.now at × OriginCountable counts }
    ensures { (result ≡ plus_all Delta counts (origin_of s.now at ∷ [])) × (out.new ≡ sets out.old counts.len (writes Delta (origin_of s.now at ∷ []))) }
{
    copy(
        s,
        Part {
            from: at,
            to: at + 26,
        },
        out,
        counts.len,
    );
    if s[at] == 0x11 {
        return Counts {
            len: counts.len + 26,
            announced: counts.announced + 1,
            withdrawn: counts.withdrawn,
        };
    }
    Counts {
        len: counts.len + 26,
        announced: counts.announced,
        withdrawn: counts.withdrawn + 1,
    }
}

// How the origin of a at i stands to that of b at j. With the lower byte of their length, which is the same, they are
// three words.
pub fn origin_compare(a: &[u8], i: usize, b: &[u8], j: usize) -> Ordering
    requires { BothAt a.now i b.now j }
    ensures { result ≡ bytes (origin_of a.now i).key (origin_of b.now j).key }
{
    let i_from = i + 2;
    let i_to = i + 26;
    let j_from = j + 2;
    let j_to = j + 26;
    compare(&a[i_from..i_to], &b[j_from..j_to])
}

// What is left of an origin that both have: nothing, unless both announce or both withdraw it.
fn put_same(a: &[u8], i: usize, b: &[u8], j: usize, out: &mut [u8], counts: Counts) -> Counts
    requires { Turns a.now i b.now j counts }
    ensures { (result ≡ plus_all Delta counts (both_origins a.now i b.now j)) × (out.new ≡ sets out.old counts.len (writes Delta (both_origins a.now i b.now j))) }
{
    if a[i] != b[j] {
        return counts;
    }
    put_origin(a, i, out, counts)
}

// One turn over two origins: where the walk stands then.
fn merge_turn(a: &[u8], b: &[u8], stand: Stand, out: &mut [u8]) -> Stand
    requires { Turns a.now stand.left b.now stand.right stand.counts }
    ensures { OriginStepIs a.now stand.left b.now stand.right stand.counts out.old out.new (Some result) }
{
    let Stand {
        left: i,
        right: j,
        counts,
    } = stand;
    match origin_compare(a, i, b, j) {
        Ordering::Less => Stand {
            left: i + 26,
            right: j,
            counts: put_origin(a, i, out, counts),
        },
        Ordering::Greater => Stand {
            left: i,
            right: j + 26,
            counts: put_origin(b, j, out, counts),
        },
        Ordering::Equal => Stand {
            left: i + 26,
            right: j + 26,
            counts: put_same(a, i, b, j, out, counts),
        },
    }
}

// One turn, if both sides have an origin.
fn origin_turn(a: &[u8], b: &[u8], stand: Stand, out: &mut [u8]) -> Option<Stand>
    requires { Ready Changes a.now stand.left × (Ready Changes b.now stand.right × OriginCountable stand.counts) }
    ensures { OriginStepIs a.now stand.left b.now stand.right stand.counts out.old out.new result }
{
    if !both_at(a, stand.left, b, stand.right) {
        return None;
    }
    Some(merge_turn(a, b, stand, out))
}

// The merge from where the walk stands, as long as both sides have origins.
pub(crate) fn put_origins(a: &[u8], b: &[u8], from: Stand, out: &mut [u8]) -> Stand
    requires { Stands Changes a.now from.left Changes b.now from.right from.counts }
    ensures { Wrote Delta Changes a.now from.left Changes b.now from.right from.counts out.old out.new result.left result.right result.counts }
{
    let mut stand = from;
    while let Some(next) = origin_turn(a, b, stand, out) {
        stand = next;
    }
    stand
}
