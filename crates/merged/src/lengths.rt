// The lengths of the held deltas, as the state has them.
ghost use Rattle.std.specs.Prelude.{◌≡◌, ◌≤◌};
ghost use Rattle.past.specs.Store.{total};
ghost use Rattle.merged.specs.Place.{between};

// The sum of the lengths from `from` up to `to`.
pub fn sum_lengths(lens: [u32; 64], from: usize, to: usize) -> usize
    requires { (from ≤ to) × (to ≤ 64) }
    ensures { result ≡ total (between lens from to) }
{
    let mut sum = 0;
    for len in &lens[from..to] {
        sum += *len as usize;
    }
    sum
}
