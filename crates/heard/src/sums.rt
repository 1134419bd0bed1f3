// How many messages announce and withdraw, and how many bytes the fields of their records take.
ghost use Rattle.std.specs.Prelude.{◌≡◌, ◌≤◌, length};
ghost use Rattle.heard.specs.Place.{key_at, Payload};
ghost use Rattle.heard.specs.Field.{record_field};
ghost use Rattle.heard.specs.Step.{plus_at, Small};

use crate::place::{announces, size_at, type_at};

#[derive(Clone, Copy)]
pub struct Sums {
    pub announced: usize,
    pub withdrawn: usize,
    // Bytes of the fields announced and withdrawn.
    pub more: usize,
    pub less: usize,
}

// How many bytes the field of a message's record takes.
pub fn field_size(s: &[u8], at: usize) -> usize
    requires { Payload s.now at }
    ensures { result ≡ length (record_field (key_at s.now at)) }
{
    if type_at(s, at) == 9 {
        return size_at(s, at) - 5;
    }
    26
}

// The sums with one message more.
pub(crate) fn plus(sums: Sums, s: &[u8], at: usize) -> Sums
    requires { Payload s.now at × Small s.now at sums }
    ensures { result ≡ plus_at s.now at sums }
{
    let size = field_size(s, at);
    if announces(s, at) {
        return Sums {
            announced: sums.announced + 1,
            more: sums.more + size,
            ..sums
        };
    }
    Sums {
        withdrawn: sums.withdrawn + 1,
        less: sums.less + size,
        ..sums
    }
}
