// What a delta's tag does with its item.
#![tactic(auto)]

ghost use Rattle.std.specs.Prelude.{◌≡◌};
ghost use Rattle.payload.specs.Count.{is_announced, is_withdrawn};

// A tag ending in 1 or 3 announces.
pub fn announces(tag: u8) -> bool
    ensures { result ≡ is_announced tag }
{
    tag % 16 == 1 || tag % 16 == 3
}

// A tag ending in 2 withdraws.
pub fn withdraws(tag: u8) -> bool
    ensures { result ≡ is_withdrawn tag }
{
    tag % 16 == 2
}
