// The header that each message starts with.
ghost use Rattle.std.specs.Prelude.{◌≡◌, ◌∷◌, [], ◌+◌, ◌≤◌, ◌<◌, length};
ghost use Rattle.std.proofs.lemmas.List.Edits.{sets};
ghost use Rattle.message.specs.Message.{header};

use item::copy::store_four;
use message::version::{Version, number_of};

// Four bytes at i: compiled to one store.
pub(crate) fn put_quad(out: &mut [u8], i: usize, a: u8, b: u8, c: u8, d: u8)
    requires { i + 4 ≤ length out.old }
    ensures { out.new ≡ sets out.old i (a ∷ b ∷ c ∷ d ∷ []) }
{
    let high = usize::from(a) * 16777216 + usize::from(b) * 65536;
    store_four(out, i, high + usize::from(c) * 256 + usize::from(d));
}

// Version, type, two bytes and the length of the whole message at i.
pub(crate) fn put_head(
    version: Version,
    kind: u8,
    high: u8,
    low: u8,
    size: usize,
    out: &mut [u8],
    i: usize,
)
    requires { (i + 8 ≤ length out.old) × (size < 4294967296) }
    ensures { out.new ≡ sets out.old i (header version kind (high ∷ low ∷ []) size) }
{
    put_quad(out, i, number_of(version), kind, high, low);
    store_four(out, i + 4, size);
}
