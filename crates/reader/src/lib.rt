// The reader of a delta: the lent bytes, and where it stands in them.
#![tactic(auto)]

ghost use Rattle.std.specs.Prelude.{◌≡◌};
ghost use Rattle.reader.specs.Step.{start, behind, found, stepped};

use field::head::{Field, field_at};

pub mod count;

// Where a reader that found a field stands next: behind a whole one, else where it stood.
fn behind_of(field: Field, at: usize) -> usize
    ensures { result ≡ behind field at }
{
    match field {
        Field::End | Field::Cut => at,
        Field::Whole { tag, from, to } => to,
    }
}

#[derive(Drop)]
pub struct DeltaReader<'a> {
    pub delta: &'a [u8],
    pub at: usize,
}

impl<'a> DeltaReader<'a> {
    // A reader at the start of a delta.
    pub fn new(delta: &'a [u8]) -> DeltaReader<'a>
        ensures { result ≡ start delta.entry }
    {
        DeltaReader { delta, at: 0 }
    }

    // The field where the reader stands. It moves behind a whole one, and stays at the end and at one that is cut short.
    pub fn next(&mut self) -> Field
        ensures { (result ≡ found self.old) × (self.new ≡ stepped self.old) }
    {
        let at = self.at;
        let field = field_at(self.delta, at);
        self.at = behind_of(field, at);
        field
    }
}
