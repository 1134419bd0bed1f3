// The message of a record: of an origin a prefix, of a router key the key.
ghost use Rattle.std.specs.Prelude.{◌≡◌, ◌+◌, ◌-◌, ◌≤◌, ◌<◌, ◌^◌, length};
ghost use Rattle.std.proofs.lemmas.List.Edits.{sets};
ghost use Rattle.number.specs.Bytes.{part};
ghost use Rattle.body.specs.Origin.{address};
ghost use Rattle.field.specs.Places.{key_in};
ghost use Rattle.message.specs.Message.{pdu};
ghost use Rattle.message.specs.Record.{message_of, router_key_of};
ghost use Rattle.pdu.specs.Write.{ipv4_of, ipv6_of, lengths_of, flags_place, size_of, Lies23, Body, Sayable, PutIs};

use crate::head::{put_head, put_quad};
use field::key::Key;
use item::copy::{copy, store_four, store_word};
use item::place::{Act, Part};
use message::version::Version;
use number::word_at;

// The flags of a change: 1 to announce, 0 to withdraw.
pub fn flags_of(act: Act) -> u8
    ensures { result ≡ flags_place act }
{
    match act {
        Act::Announce(_) | Act::Update(_, _) => 1,
        Act::Withdraw(_) => 0,
    }
}

// Flags, prefix length, maximum length and a zero: what stands in front of an address.
fn put_lengths(s: &[u8], from: usize, flags: u8, out: &mut [u8], i: usize)
    requires { Lies23 s.now from × (i + 4 ≤ length out.old) }
    ensures { out.new ≡ sets out.old i (lengths_of flags (part s.now from (from + 23))) }
{
    put_quad(out, i, flags, s[from + 17], s[from + 18], 0);
}

// The AS number of the origin whose body lies at `from`.
fn put_asn(s: &[u8], from: usize, out: &mut [u8], i: usize)
    requires { Lies23 s.now from × (i + 4 ≤ length out.old) }
    ensures { out.new ≡ sets out.old i (part s.now (from + 19) (from + 23)) }
{
    store_four(out, i, word_at(s, from + 15) % 4294967296);
}

// IPv4 Prefix.
pub fn put_ipv4(version: Version, s: &[u8], from: usize, flags: u8, out: &mut [u8], i: usize)
    requires { Lies23 s.now from × (i + 20 ≤ length out.old) }
    ensures { out.new ≡ sets out.old i (pdu version (ipv4_of flags (part s.now from (from + 23)))) }
{
    put_head(version, 4, 0, 0, 20, out, i);
    put_lengths(s, from, flags, out, i + 8);
    store_four(out, i + 12, word_at(s, from + 1) / 4294967296);
    put_asn(s, from, out, i + 16);
}

// The 16 bytes of an address.
fn put_address(s: &[u8], from: usize, out: &mut [u8], i: usize)
    requires { Lies23 s.now from × (i + 16 ≤ length out.old) }
    ensures { out.new ≡ sets out.old i (address (part s.now from (from + 23))) }
{
    store_word(out, i, word_at(s, from + 1));
    store_word(out, i + 8, word_at(s, from + 9));
}

// IPv6 Prefix.
// Kept: as `put_ipv4`, of another length.
pub fn put_ipv6(version: Version, s: &[u8], from: usize, flags: u8, out: &mut [u8], i: usize)
    requires { Lies23 s.now from × (i + 32 ≤ length out.old) }
    ensures { out.new ≡ sets out.old i (pdu version (ipv6_of flags (part s.now from (from + 23)))) }
{
    put_head(version, 6, 0, 0, 32, out, i);
    put_lengths(s, from, flags, out, i + 8);
    put_address(s, from, out, i + 12);
    put_asn(s, from, out, i + 28);
}

// Router Key.
fn put_router_key(version: Version, s: &[u8], p: Part, flags: u8, out: &mut [u8], i: usize)
    requires { Body s.now p × (i + (8 + (p.to - p.from)) ≤ length out.old) }
    ensures { out.new ≡ sets out.old i (pdu version (router_key_of flags (part s.now p.from p.to))) }
{
    put_head(version, 9, flags, 0, 8 + (p.to - p.from), out, i);
    copy(s, p, out, i + 8);
}

// How many bytes the message of a record has.
fn size_of(s: &[u8], key: Key) -> usize
    requires { Sayable s.now key }
    ensures { result ≡ size_of (key_in s.now key) }
{
    let from = key.from;
    if key.kind != 1 {
        return 8 + (key.to - from);
    }
    if s[from] == 4 {
        return 20;
    }
    32
}

// The message of a record, where there is room for it.
fn put_known(version: Version, s: &[u8], key: Key, flags: u8, out: &mut [u8], i: usize)
    requires { Sayable s.now key × (i + size_of (key_in s.now key) ≤ length out.old) }
    ensures { out.new ≡ sets out.old i (pdu version (message_of flags (key_in s.now key))) }
{
    let from = key.from;
    if key.kind != 1 {
        put_router_key(version, s, Part { from, to: key.to }, flags, out, i);
        return;
    }
    if s[from] == 4 {
        put_ipv4(version, s, from, flags, out, i);
        return;
    }
    put_ipv6(version, s, from, flags, out, i);
}

// The message of a record at i, if there is room for all of it; its size in any case.
pub fn put_message(
    version: Version,
    s: &[u8],
    key: Key,
    flags: u8,
    out: &mut [u8],
    i: usize,
) -> usize
    requires { Sayable s.now key × (i < 2 ^ 62) }
    ensures { PutIs (pdu version (message_of flags (key_in s.now key))) out.old i out.new result }
{
    let size = size_of(s, key);
    if out.len() < i + size {
        return size;
    }
    put_known(version, s, key, flags, out, i);
    size
}
