// The front of a key: its first eight bytes as one number. Where two fronts differ, the keys are ordered as they are.
ghost use Rattle.std.specs.Prelude.{◌≡◌};
ghost use Rattle.item.specs.Front.{front_in};

// The front of a field's key, by its kind and the eight bytes behind its head.
pub fn front_in(kind: u8, word: usize) -> usize
    ensures { result ≡ front_in kind word }
{
    let first = usize::from(kind) * 72057594037927936;
    if kind == 3 {
        return first + word / 4294967296 * 16777216;
    }
    first + word / 256
}
