// Where a payload message has its parts.
ghost use Rattle.std.specs.Prelude.{◌≡◌, ◌≤◌};
ghost use Rattle.heard.specs.Place.{type_at, size_at, announces_at, Payload};

use number::word_at;

// The type.
// Kept: its number, with which `front_at` computes; an enum would be turned back into it there.
pub fn type_at(s: &[u8], at: usize) -> u8
    requires { Payload s.now at }
    ensures { result ≡ type_at s.now at }
{
    s[at + 1]
}

// The length.
pub fn size_at(s: &[u8], at: usize) -> usize
    requires { Payload s.now at }
    ensures { (result ≡ size_at s.now at) × (8 ≤ result) × (result ≤ 1056) }
{
    word_at(s, at) % 4294967296
}

// Whether it announces its record.
pub fn announces(s: &[u8], at: usize) -> bool
    requires { Payload s.now at }
    ensures { result ≡ announces_at s.now at }
{
    if s[at + 1] == 9 {
        return s[at + 2] == 1;
    }
    s[at + 8] == 1
}
