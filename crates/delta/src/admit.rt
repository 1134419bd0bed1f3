// Whether the inputs of an entry may be read: refusal 10, then 1, 12 and 2.
ghost use Rattle.std.specs.Prelude.{◌≡◌, not, leb, length};
ghost use Rattle.payload.specs.Limit.{limit};
ghost use Rattle.delta.specs.Admission.{judged_of, admit_one_of, admit_of};

use crate::refusal::Refusal;
use body::tag::Form;
use field::verdict::Flaw;
use verdict::check::check;

pub const SNAPSHOT_LIMIT: usize = 16777216;

pub const DELTA_LIMIT: usize = 33554432;

// Whether s is no longer than its form's limit.
pub fn within_limit(form: Form, s: &[u8]) -> bool
    ensures { result ≡ leb (length s.now) (limit form) }
{
    match form {
        Form::Snapshot => s.len() <= SNAPSHOT_LIMIT,
        Form::Delta => s.len() <= DELTA_LIMIT,
    }
}

// Refusals 1, 12 and 2 of one input.
pub fn judged(form: Form, s: &[u8], argument: u8) -> Result<(), Refusal>
    ensures { result ≡ judged_of form s.now argument }
{
    match check(form, s) {
        Ok(()) => Ok(()),
        Err(Flaw::Bad { at }) => Err(Refusal::Bad { argument, at }),
        Err(Flaw::Senseless { at }) => Err(Refusal::Senseless { argument, at }),
        Err(Flaw::NotAbove { at }) => Err(Refusal::NotAbove { argument, at }),
    }
}

// A lone input.
pub fn admit_one(form: Form, s: &[u8]) -> Result<(), Refusal>
    ensures { result ≡ admit_one_of form s.now }
{
    if !within_limit(form, s) {
        return Err(Refusal::TooLong { argument: 1 });
    }
    judged(form, s, 1)
}

// A pair of inputs: 10 over both, then 1, 12 and 2, the first argument first.
pub fn admit(first: Form, a: &[u8], second: Form, b: &[u8]) -> Result<(), Refusal>
    ensures { result ≡ admit_of first a.now second b.now }
{
    if !within_limit(first, a) {
        return Err(Refusal::TooLong { argument: 1 });
    }
    if !within_limit(second, b) {
        return Err(Refusal::TooLong { argument: 2 });
    }
    judged(first, a, 1)?;
    judged(second, b, 2)
}
