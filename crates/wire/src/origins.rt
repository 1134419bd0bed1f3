// The origins of a snapshot written as messages, one behind the other.
ghost use Rattle.std.specs.Prelude.{◌≡◌, ◌<◌, ◌^◌};
ghost use Rattle.field.specs.If.{If};
ghost use Rattle.item.specs.declared.reading.Reading.TheVariants.{Announced};
ghost use Rattle.item.specs.Reading.{Ready};
ghost use Rattle.pdu.specs.Write.{PutIs};
ghost use Rattle.wire.specs.Left.{Listed, counted, IsFamily, OriginAt, origin_pdu, Passed};

use crate::tally::Tally;
use message::version::Version;
use pdu::record::{put_ipv4, put_ipv6};

// Where a run of origins ends, and what was counted up to there.
#[derive(Clone, Copy)]
pub struct RunEnd {
    pub at: usize,
    pub tally: Tally,
}

// Whether a snapshot has an origin of this family at a place. A no decides nothing.
fn origin_at(s: &[u8], at: usize, family: u8) -> bool
    requires { Ready Announced s.now at }
    ensures { If result (OriginAt s.now at family) }
{
    26 <= s.len() - at && s[at] == 1 && s[at + 3] == family
}

// The message of the IPv4 origin at a place, if there is room for all of it; its size in any case.
fn put_four(version: Version, s: &[u8], at: usize, out: &mut [u8], i: usize) -> usize
    requires { OriginAt s.now at 4 × (i < 2 ^ 62) }
    ensures { PutIs (origin_pdu version s.now at) out.old i out.new result }
{
    if out.len() < i + 20 {
        return 20;
    }
    put_ipv4(version, s, at + 3, 1, out, i);
    20
}

// The same of the IPv6 origin at a place.
fn put_six(version: Version, s: &[u8], at: usize, out: &mut [u8], i: usize) -> usize
    requires { OriginAt s.now at 6 × (i < 2 ^ 62) }
    ensures { PutIs (origin_pdu version s.now at) out.old i out.new result }
{
    if out.len() < i + 32 {
        return 32;
    }
    put_ipv6(version, s, at + 3, 1, out, i);
    32
}

// The message of the origin of this family at a place, if there is room for all of it; its size in any case.
fn put_origin<const FAMILY: u8>(
    version: Version,
    s: &[u8],
    at: usize,
    out: &mut [u8],
    i: usize,
) -> usize
    requires { OriginAt s.now at FAMILY × (i < 2 ^ 62) × IsFamily FAMILY }
    ensures { PutIs (origin_pdu version s.now at) out.old i out.new result }
{
    if FAMILY == 4 {
        put_four(version, s, at, out, i)
    } else {
        put_six(version, s, at, out, i)
    }
}

// What was counted, with another length and another number of announcements.
fn run_to(at: usize, len: usize, announced: usize, t: Tally) -> RunEnd
    ensures { result ≡ record { at = at; tally = counted t len announced } }
{
    RunEnd {
        at,
        tally: Tally {
            len,
            announced,
            ..t
        },
    }
}

// The messages of the origins of this family from `from` on, up to the first other field. An origin adds to two of the
// counts alone.
fn put_run<const FAMILY: u8>(
    version: Version,
    s: &[u8],
    from: usize,
    out: &mut [u8],
    t: Tally,
) -> RunEnd
    requires { Listed s.now from t × IsFamily FAMILY }
    ensures { Passed version s.now from t out.old out.new result }
{
    let mut at = from;
    let mut len = t.len;
    let mut announced = t.announced;
    while origin_at(s, at, FAMILY) {
        let size = put_origin::<FAMILY>(version, s, at, out, len);
        len += size;
        at += 26;
        announced += 1;
    }
    run_to(at, len, announced, t)
}

// The messages of the origins from `from` on: in a snapshot those of IPv4 stand in front of those of IPv6.
pub(crate) fn put_origins(
    version: Version,
    s: &[u8],
    from: usize,
    out: &mut [u8],
    t: Tally,
) -> RunEnd
    requires { Listed s.now from t }
    ensures { Passed version s.now from t out.old out.new result }
{
    let fours = put_run::<4>(version, s, from, out, t);
    put_run::<6>(version, s, fours.at, out, fours.tally)
}
