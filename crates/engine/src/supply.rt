//! How many ticks engines serve.
ghost use Rattle.std.specs.Prelude.{◌≡◌, ℕ, ◌≤◌, min, length};
ghost use Rattle.engine.specs.Supply.{Lawful, NoneServed};

use crate::roster::Roster;

/// The most ticks that a question is asked about: twice a belt cycle. It stands here too, since this crate does not know `theory`.
pub const FARTHEST: u32 = 28_800;

/// A platform that serves: each engine at least so many ticks in every so many in a row.
pub trait Supply: Roster {
    /// The least ticks that an engine serves in any n ticks in a row.
    ghost supply: { Self → ℕ → ℕ → ℕ };

    /// After so many ticks an engine's supply repeats.
    ghost cycle: { Self → ℕ → ℕ };

    /// The ticks that an engine serves in a cycle.
    ghost quota: { Self → ℕ → ℕ };

    /// What every platform keeps, of each engine.
    ghost laws: { (platform : Self) (engine : ℕ) → Lawful (supply platform engine) (cycle platform engine) (quota platform engine) };

    /// The supply of an engine in n ticks; beyond twice a belt cycle, that of twice a belt cycle.
    fn supply(&self, engine: usize, ticks: u32) -> u32
        ensures { result ≡ supply self.now engine (min ticks 28800) };

    /// The cycle of an engine.
    fn cycle(&self, engine: usize) -> u32
        ensures { result ≡ cycle self.now engine };

    /// The quota of an engine.
    fn quota(&self, engine: usize) -> u32
        ensures { result ≡ quota self.now engine };

    /// An engine that does not exist serves nothing.
    ghost missing: { (platform : Self) (engine : ℕ) → length (Self.Roster.tags platform) ≤ engine → NoneServed (supply platform engine) (cycle platform engine) (quota platform engine) };
}
