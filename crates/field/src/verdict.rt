// What can be wrong with a run of fields, and at which offset: that of its first bad field.
#[derive(Clone, Copy, Debug, PartialEq, Eq)]
pub enum Flaw {
    // It is cut short, has an unknown tag, or breaks a body rule.
    Bad { at: usize },
    // It is an ASPA without providers, or one that names its customer among them.
    Senseless { at: usize },
    // It does not stand above the one before it.
    NotAbove { at: usize },
}
