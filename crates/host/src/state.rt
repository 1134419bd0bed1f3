// The state of a history as the host keeps it.
ghost use Rattle.std.specs.Prelude.{◌≡◌};
ghost use Rattle.host.specs.State.{history_of, mark_of, state_of};

use past::state::History;
use serial::Serial;

#[repr(C)]
#[derive(Clone, Copy)]
pub struct State {
    pub session: u64,
    pub keep: u32,
    // 0 for inactive, any other number for active.
    pub active: u32,
    pub newest: Serial,
    pub start: Serial,
    pub n: u32,
    pub snapshot: u32,
    pub deltas: [u32; 64],
}

// Kept: a name that the specs share; `From` would hide which state it is of.
pub fn history_of(s: State) -> History
    ensures { result ≡ history_of s }
{
    let deltas = s.deltas;
    History {
        session: s.session,
        keep: s.keep,
        active: s.active != 0,
        newest: s.newest,
        start: s.start,
        n: s.n,
        snapshot: s.snapshot,
        deltas,
    }
}

// An active mark as a number: 1 for active.
fn mark(active: bool) -> u32
    ensures { result ≡ mark_of active }
{
    if active { 1 } else { 0 }
}

pub fn state_of(h: History) -> State
    ensures { result ≡ state_of h }
{
    let deltas = h.deltas;
    State {
        session: h.session,
        keep: h.keep,
        active: mark(h.active),
        newest: h.newest,
        start: h.start,
        n: h.n,
        snapshot: h.snapshot,
        deltas,
    }
}
