// Where the parts of an item lie: no bytes are held, only places.
use field::key::Key;

// The bytes from `from` up to `to`.
#[derive(Clone, Copy)]
pub struct Part {
    pub from: usize,
    pub to: usize,
}

// A change, by where its former and its new value lie.
#[derive(Clone, Copy)]
pub enum Act {
    Announce(Part),
    Withdraw(Part),
    Update(Part, Part),
}

// An item of a run, and where the next one starts.
#[derive(Clone, Copy)]
pub struct Entry {
    pub key: Key,
    pub act: Act,
    pub next: usize,
}
