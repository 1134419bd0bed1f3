// The field of an origin, head and body, as words. All that is asked of its bytes is asked of the words: a byte that is
// read singly beside a word over it would keep the word from being one load.
ghost use Rattle.std.specs.Prelude.{◌≡◌, ◌+◌, ◌≤◌, length};
ghost use Rattle.field.specs.Words.{words_at};

use number::{pair_at, word_at};

// The eight bytes at 0, the eight at 8, the eight at 16 and the two at 24.
#[derive(Clone, Copy)]
pub struct Words {
    pub first: usize,
    pub second: usize,
    pub third: usize,
    pub last: usize,
}

// The words of the field at `at`.
pub fn words_at(s: &[u8], at: usize) -> Words
    requires { at + 26 ≤ length s.now }
    ensures { result ≡ words_at s.now at }
{
    Words {
        first: word_at(s, at),
        second: word_at(s, at + 8),
        third: word_at(s, at + 16),
        last: pair_at(s, at + 24),
    }
}
