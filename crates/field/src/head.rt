// The head of a field: a one-byte tag, a two-byte length.
ghost use Rattle.std.specs.Prelude.{◌≡◌};
ghost use Rattle.field.specs.Head.{field_at};

use number::two_at;

// What stands at a place of a run of fields.
// Kept: three answers; the reader's `next` hands them to its callers.
#[derive(Clone, Copy)]
pub enum Field {
    // Nothing: the run's end.
    End,
    // A field that is cut short.
    Cut,
    // A field, with the place of its body. It ends where its body does.
    Whole { tag: u8, from: usize, to: usize },
}

// The field at a place.
pub fn field_at(s: &[u8], at: usize) -> Field
    ensures { result ≡ field_at s.now at }
{
    if s.len() <= at {
        return Field::End;
    }
    let room = s.len() - at;
    if room < 3 {
        return Field::Cut;
    }
    let size = two_at(s, at + 1);
    if room - 3 < size {
        return Field::Cut;
    }
    let tag = s[at];
    let from = at + 3;
    let to = from + size;
    Field::Whole { tag, from, to }
}
