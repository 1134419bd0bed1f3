// What a history holds beside its two lent stores.
use serial::Serial;

// Kept: 64 lengths and how many of them count, since C keeps the state by value.
#[derive(Clone, Copy)]
pub struct History {
    pub session: u64,
    pub keep: u32,
    pub active: bool,
    pub newest: Serial,
    // The serial that the history started with.
    pub start: Serial,
    // How many deltas are held.
    pub n: u32,
    // The length of the held snapshot.
    pub snapshot: u32,
    // The lengths of the held deltas, oldest first; unused ones are 0.
    pub deltas: [u32; 64],
}
