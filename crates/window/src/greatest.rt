//! The greatest of the values at some places of a table.
ghost use Rattle.std.specs.Prelude.{◌≡◌, false, slice_index, slice_index_or};
ghost use Rattle.window.specs.Greatest.{greatest};

use task::node::NODES;

/// The greatest value at the places that are picked, or 0.
pub fn greatest(places: &[bool; NODES], values: &[u32; NODES]) -> u32
    ensures { result ≡ greatest (λ u. slice_index_or places.now u false) (λ u. slice_index values.now u) 24 }
{
    places.iter().zip(values).fold(0, |most, (place, value)| {
        if *place { (*value).max(most) } else { most }
    })
}
