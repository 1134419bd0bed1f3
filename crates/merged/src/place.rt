// Where the held deltas lie in the delta store.
ghost use Rattle.merged.specs.Place.{Summed, Placed};

// Where each delta starts and ends.
#[derive(Clone, Copy)]
pub struct Places {
    pub at: [usize; 64],
    pub ends: [usize; 64],
}

// The places of the first n deltas: they lie one behind the other.
pub fn place_all(lengths: [u32; 64], n: usize) -> Places
    requires { Summed lengths n }
    ensures { Placed lengths n result }
{
    let mut places = Places {
        at: [0; 64],
        ends: [0; 64],
    };
    let mut sum = 0;
    for i in 0..n {
        places.at[i] = sum;
        sum += lengths[i] as usize;
        places.ends[i] = sum;
    }
    places
}
