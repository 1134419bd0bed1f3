// The refusals: document 01's ten, and those of later requests.
ghost use Rattle.std.specs.Prelude.{◌≡◌};
ghost use Rattle.delta.specs.Refusal.{number_of, argument_of, offset_of};

// Kept: an argument is the number that document 01 and C give it.
#[derive(Clone, Copy, Debug, PartialEq, Eq)]
pub enum Refusal {
    // A field is cut short, has an unknown tag, or breaks a body rule.
    Bad { argument: u8, at: usize },
    // A field does not stand above the one before it.
    NotAbove { argument: u8, at: usize },
    // An item of the delta cannot be applied.
    CannotApply { at: usize },
    // The whole answer is longer than the output lent.
    NoRoom,
    OtherSession,
    // The serial is not served.
    NotServed,
    // The history lent with its stores is not well formed.
    IllFormed,
    // At creation, keep is not 1 to 64.
    BadKeep,
    // The snapshot is longer than its store, or the delta store is full.
    StoreFull,
    // An input, or a store at creation, is over its length limit.
    TooLong { argument: u8 },
    // A list of queries has more than 384 of them, or is cut inside one.
    BadList,
    // An ASPA has no providers, or names its customer among them.
    Senseless { argument: u8, at: usize },
    // A message is broken or out of place, or the answer is not complete.
    Faulty { at: usize },
    // A message withdraws a record that is not there.
    Absent { at: usize },
    // A message announces a record that is there already.
    Present { at: usize },
}

impl Refusal {
    pub fn number(self) -> u8
        ensures { result ≡ number_of self }
    {
        match self {
            Refusal::Bad { .. } => 1,
            Refusal::NotAbove { .. } => 2,
            Refusal::CannotApply { .. } => 3,
            Refusal::NoRoom => 4,
            Refusal::OtherSession => 5,
            Refusal::NotServed => 6,
            Refusal::IllFormed => 7,
            Refusal::BadKeep => 8,
            Refusal::StoreFull => 9,
            Refusal::TooLong { .. } => 10,
            Refusal::BadList => 11,
            Refusal::Senseless { .. } => 12,
            Refusal::Faulty { .. } => 13,
            Refusal::Absent { .. } => 14,
            Refusal::Present { .. } => 15,
        }
    }

    pub fn argument(self) -> u8
        ensures { result ≡ argument_of self }
    {
        match self {
            Refusal::Bad { argument, .. }
            | Refusal::NotAbove { argument, .. }
            | Refusal::TooLong { argument }
            | Refusal::Senseless { argument, .. } => argument,
            Refusal::CannotApply { .. }
            | Refusal::Faulty { .. }
            | Refusal::Absent { .. }
            | Refusal::Present { .. } => 2,
            Refusal::NoRoom
            | Refusal::OtherSession
            | Refusal::NotServed
            | Refusal::IllFormed
            | Refusal::BadKeep
            | Refusal::StoreFull
            | Refusal::BadList => 0,
        }
    }

    pub fn offset(self) -> usize
        ensures { result ≡ offset_of self }
    {
        match self {
            Refusal::Bad { at, .. }
            | Refusal::NotAbove { at, .. }
            | Refusal::CannotApply { at }
            | Refusal::Senseless { at, .. }
            | Refusal::Faulty { at }
            | Refusal::Absent { at }
            | Refusal::Present { at } => at,
            Refusal::NoRoom
            | Refusal::OtherSession
            | Refusal::NotServed
            | Refusal::IllFormed
            | Refusal::BadKeep
            | Refusal::StoreFull
            | Refusal::TooLong { .. }
            | Refusal::BadList => 0,
        }
    }
}
