// The lines of a listing: one for each field of a delta.
ghost use Rattle.std.specs.Prelude.{◌≡◌, ◌+◌, ◌^◌, ◌<◌, ◌≤◌, length};
ghost use Rattle.body.specs.declared.tag.Form.TheVariants.{Delta};
ghost use Rattle.field.specs.Cells.{cells};
ghost use Rattle.payload.specs.Limit.{limit};
ghost use Rattle.listing.specs.Text.{hex_digit};
ghost use Rattle.listing.specs.Listing.{mark, hex, hexes, line_of, lines_of};
ghost use Rattle.listing.specs.Put.{Puts};

use crate::text::put_text;
use field::head::{Field, field_at};
use payload::withdraws;

// W marks tags ending in 2, A those ending in 1 or 3.
fn mark_of(tag: u8) -> u8
    ensures { result ≡ mark tag }
{
    if withdraws(tag) { b'W' } else { b'A' }
}

// A hex digit, in lower case.
fn hex_digit(d: u8) -> u8
    requires { d < 16 }
    ensures { result ≡ hex_digit d }
{
    if d < 10 { 48 + d } else { 87 + d }
}

// A space and a byte in hex at i.
fn put_hex(x: u8, out: &mut [u8], i: usize) -> usize
    requires { i < 2 ^ 63 }
    ensures { Puts out.old i (hex x) out.new result }
{
    let high = hex_digit(x / 16);
    let low = hex_digit(x % 16);
    put_text(&[b' ', high, low], out, i)
}

// Each byte at i, after a space, in hex.
fn put_hexes(s: &[u8], out: &mut [u8], i: usize) -> usize
    requires { (length s.now ≤ limit Delta) × (i < 2 ^ 62) }
    ensures { Puts out.old i (hexes s.now) out.new result }
{
    let mut end = i;
    for &x in s {
        end = put_hex(x, out, end);
    }
    end
}

// The line of a field at i.
fn put_line(tag: u8, body: &[u8], out: &mut [u8], i: usize) -> usize
    requires { (length body.now ≤ limit Delta) × (i < 2 ^ 61) }
    ensures { Puts out.old i (line_of (record { tag = tag; body = body.now })) out.new result }
{
    let marked = put_text(&[mark_of(tag)], out, i);
    let tagged = put_hex(tag, out, marked);
    let end = put_hexes(body, out, tagged);
    put_text(b"\n", out, end)
}

// The line of each field at i.
pub fn put_lines(delta: &[u8], out: &mut [u8], i: usize) -> usize
    requires { (length delta.now ≤ limit Delta) × (i < 1024) }
    ensures { Puts out.old i (lines_of (cells delta.now)) out.new result }
{
    let mut at = 0;
    let mut end = i;
    loop {
        match field_at(delta, at) {
            Field::End | Field::Cut => return end,
            Field::Whole { tag, from, to } => {
                end = put_line(tag, &delta[from..to], out, end);
                at = to;
            }
        }
    }
}
