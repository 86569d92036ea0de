//! The masks of a tick: a bit for each engine.
ghost use Rattle.std.specs.Prelude.{◌≡◌};
ghost use Rattle.dispatch.specs.Ticking.{masked};

use engine::roster::ENGINES;

/// Whether the bit of the engine is set.
pub fn is_set(mask: u16, engine: usize) -> bool
    ensures { result ≡ masked mask engine }
{
    engine < ENGINES && (mask >> engine) & 1 == 1
}
