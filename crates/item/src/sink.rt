// Writing into a lent slice: what has no room is counted and not written, so that one loop measures and writes.
ghost use Rattle.std.specs.Prelude.{◌≡◌, ◌∷◌, [], ◌+◌, ◌*◌, ◌/◌, ◌%◌, ◌^◌, ◌≤◌, ◌<◌, set};
ghost use Rattle.std.proofs.lemmas.List.Edits.{sets};
ghost use Rattle.payload.specs.Content.{values_for};
ghost use Rattle.item.specs.Place.{Lies, PartSized, KeyIn, ActFits, ActSized, part_in, part_size, key_size, values_size, change_in, item_in};
ghost use Rattle.item.specs.Write.{Countable, tag_place, plus_place, plus_item, field_as};

use crate::copy::copy;
use crate::place::{Act, Part};
use body::tag::Form;
use field::key::Key;

// How long an answer is, and how many items it announces and withdraws.
#[derive(Clone, Copy)]
pub struct Counts {
    pub len: usize,
    pub announced: usize,
    pub withdrawn: usize,
}

// A byte at i.
fn put_byte(out: &mut [u8], i: usize, x: u8)
    ensures { out.new ≡ set out.old i x }
{
    if i < out.len() {
        out[i] = x;
    }
}

// A number of two bytes at i.
fn put_two(out: &mut [u8], i: usize, n: usize)
    requires { (i < 2 ^ 63) × (n < 65536) }
    ensures { out.new ≡ sets out.old i (n / 256 ∷ n % 256 ∷ []) }
{
    put_byte(out, i, (n / 256) as u8);
    put_byte(out, i + 1, (n % 256) as u8);
}

// How many bytes a part has.
fn part_size(p: Part) -> usize
    requires { PartSized p }
    ensures { result ≡ part_size p }
{
    p.to - p.from
}

// How many bytes the values of a change take in a body.
fn values_size(act: Act) -> usize
    requires { ActSized act }
    ensures { result ≡ values_size act }
{
    match act {
        Act::Announce(n) => part_size(n),
        Act::Withdraw(p) => part_size(p),
        Act::Update(p, n) => 2 + part_size(p) + part_size(n),
    }
}

// The values of a change at i: the former one lies in a, the new one in b.
fn put_values(a: &[u8], act: Act, b: &[u8], out: &mut [u8], i: usize)
    requires { ActFits a.now b.now act × (i < 2 ^ 63) }
    ensures { out.new ≡ sets out.old i (values_for (change_in a.now b.now act)) }
{
    match act {
        Act::Announce(n) => copy(b, n, out, i),
        Act::Withdraw(p) => copy(a, p, out, i),
        Act::Update(p, n) => {
            let size = part_size(p);
            put_two(out, i, size / 4);
            copy(a, p, out, i + 2);
            copy(b, n, out, i + 2 + size);
        }
    }
}

// The tag of a change of a kind; in a snapshot the kind alone.
fn tag_as(form: Form, kind: u8, act: Act) -> u8
    requires { kind ≤ 3 }
    ensures { result ≡ tag_place form kind act }
{
    match form {
        Form::Snapshot => kind,
        Form::Delta => match act {
            Act::Announce(_) => kind * 16 + 1,
            Act::Withdraw(_) => kind * 16 + 2,
            Act::Update(_, _) => kind * 16 + 3,
        },
    }
}

// The counts with one item more, of a field of this size.
fn plus(counts: Counts, act: Act, size: usize) -> Counts
    requires { Countable counts × (size < 65539) }
    ensures { result ≡ plus_place counts act size }
{
    match act {
        Act::Announce(_) | Act::Update(_, _) => Counts {
            len: counts.len + size,
            announced: counts.announced + 1,
            withdrawn: counts.withdrawn,
        },
        Act::Withdraw(_) => Counts {
            len: counts.len + size,
            announced: counts.announced,
            withdrawn: counts.withdrawn + 1,
        },
    }
}

// A field's head at i.
fn put_head(out: &mut [u8], i: usize, tag: u8, size: usize)
    requires { (i < 2 ^ 62) × (size < 65536) }
    ensures { out.new ≡ sets out.old i (tag ∷ size / 256 ∷ size % 256 ∷ []) }
{
    put_byte(out, i, tag);
    put_two(out, i + 1, size);
}

// The field of an item at i, and its size: its key and former value lie in a, its new value in b.
fn put_field(form: Form, a: &[u8], key: Key, act: Act, b: &[u8], out: &mut [u8], i: usize) -> usize
    requires { KeyIn a.now key × (ActFits a.now b.now act × (i < 2 ^ 62)) }
    ensures { (result ≡ 3 + (key_size key + values_size act)) × (out.new ≡ sets out.old i (field_as form (item_in a.now b.now key act))) }
{
    let name = Part {
        from: key.from,
        to: key.to,
    };
    let behind = part_size(name);
    let size = behind + values_size(act);
    put_head(out, i, tag_as(form, key.kind, act), size);
    copy(a, name, out, i + 3);
    put_values(a, act, b, out, i + 3 + behind);
    3 + size
}

// The field of an item, behind what was written so far.
pub fn put_item(
    form: Form,
    a: &[u8],
    key: Key,
    act: Act,
    b: &[u8],
    out: &mut [u8],
    counts: Counts,
) -> Counts
    requires { KeyIn a.now key × (ActFits a.now b.now act × Countable counts) }
    ensures { (result ≡ plus_item form counts (item_in a.now b.now key act)) × (out.new ≡ sets out.old counts.len (field_as form (item_in a.now b.now key act))) }
{
    let size = put_field(form, a, key, act, b, out, counts.len);
    plus(counts, act, size)
}
