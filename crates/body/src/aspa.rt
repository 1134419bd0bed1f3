// The body of an ASPA, and of the update of one.
ghost use Rattle.std.specs.Prelude.{◌≡◌, ◌&&◌, ◌/◌, ◌%◌, ◌≤◌, leb, eqb, length};
ghost use Rattle.body.specs.Aspa.{asns, ascending, good_providers, good_aspa, good_update, sensible_asns, sensible_aspa, sensible_update};
ghost use Rattle.body.specs.Sound.{sound_asns};
ghost use Rattle.body.specs.Leaves.{Leaves};

use number::{asn_at, two_at};
use serial::Asn;

// Whether each AS number is above the one before it.
fn ascending_asns(s: &[u8]) -> bool
    ensures { result ≡ ascending (asns s.now) }
{
    if s.len() < 4 {
        return true;
    }
    let mut before = asn_at(s, 0);
    for k in 1..s.len() / 4 {
        let asn = asn_at(s, 4 * k);
        if asn.0 <= before.0 {
            return false;
        }
        before = asn;
    }
    true
}

// Whether these are 0 to 4,096 AS numbers.
fn sized(s: &[u8]) -> bool
    ensures { result ≡ leb (length s.now / 4) 4096 && eqb (length s.now % 4) 0 }
{
    if 4096 < s.len() / 4 {
        return false;
    }
    s.len() % 4 == 0
}

// Whether this is a list of providers: 0 to 4,096 AS numbers, strictly ascending.
pub fn providers_ok(s: &[u8]) -> bool
    ensures { result ≡ good_providers s.now }
{
    if !sized(s) {
        return false;
    }
    ascending_asns(s)
}

// Whether this is the body of an ASPA: customer, providers.
pub fn aspa_ok(body: &[u8]) -> bool
    ensures { result ≡ good_aspa body.now }
{
    if body.len() < 4 {
        return false;
    }
    providers_ok(&body[4..])
}

// Whether this is the body of an update: customer, count of former providers, those, the new ones.
pub fn update_ok(body: &[u8]) -> bool
    ensures { result ≡ good_update body.now }
{
    if body.len() < 6 {
        return false;
    }
    let size = two_at(body, 4) * 4;
    if body.len() - 6 < size {
        return false;
    }
    let end = 6 + size;
    if !providers_ok(&body[6..end]) {
        return false;
    }
    providers_ok(&body[end..])
}

// How many bytes are left where a list stops to be sound: at an AS number that is not above the one before it, or that is
// the customer. 0 if there is none. (As a number: two tests for one bool would be joined, and cost more than two jumps.)
fn unsound_asns(customer: Asn, s: &[u8]) -> usize
    requires { (4 ≤ length s.now) × (length s.now % 4 ≡ 0) }
    ensures { Leaves result (sound_asns customer.0 (asns s.now)) }
{
    let mut before = asn_at(s, 0);
    if before.0 == customer.0 {
        return s.len();
    }
    let mut left = s.len() - 4;
    while left != 0 {
        let asn = asn_at(s, s.len() - left);
        if asn.0 <= before.0 {
            return left;
        }
        if asn.0 == customer.0 {
            return left;
        }
        before = asn;
        left -= 4;
    }
    left
}

// Whether this is a list of providers that makes sense for the customer.
fn providers_sound(customer: Asn, s: &[u8]) -> bool
    ensures { result ≡ good_providers s.now && sensible_asns customer.0 (asns s.now) }
{
    if !sized(s) {
        return false;
    }
    if s.len() == 0 {
        return false;
    }
    unsound_asns(customer, s) == 0
}

// Whether this is the body of an ASPA that makes sense.
// Kept: as `aspa_ok`, in one pass with what makes sense: taken apart the check would read each list twice.
pub fn aspa_sound(body: &[u8]) -> bool
    ensures { result ≡ good_aspa body.now && sensible_aspa body.now }
{
    if body.len() < 4 {
        return false;
    }
    providers_sound(asn_at(body, 0), &body[4..])
}

// Whether this is the body of an update that makes sense, the former providers and the new ones.
pub fn update_sound(body: &[u8]) -> bool
    ensures { result ≡ good_update body.now && sensible_update body.now }
{
    if body.len() < 6 {
        return false;
    }
    let size = two_at(body, 4) * 4;
    if body.len() - 6 < size {
        return false;
    }
    let end = 6 + size;
    let customer = asn_at(body, 0);
    if !providers_sound(customer, &body[6..end]) {
        return false;
    }
    providers_sound(customer, &body[end..])
}
