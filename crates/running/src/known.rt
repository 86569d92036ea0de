//! Whether masks name only engines that exist.
ghost use Rattle.std.specs.Prelude.{MatchBool};
ghost use Rattle.running.specs.Ticking.{NoOther, SomeOther};

use dispatch::mask::is_set;
use engine::roster::ENGINES;

/// Whether a mask names an engine beyond the first ones.
pub(crate) fn names_another(engines: usize, served: u16, done: u16) -> bool
    ensures { MatchBool result (SomeOther engines served done) (NoOther engines served done) }
{
    for engine in engines..ENGINES {
        if is_set(served, engine) || is_set(done, engine) {
            return true;
        }
    }
    false
}
