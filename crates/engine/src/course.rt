//! The served ticks of an engine.
ghost use Rattle.std.specs.Prelude.{◌≡◌, ℕ, ◌≤◌, length, slice_index, MatchOption};
ghost use Rattle.cyclic.specs.Fewest.{fewest};
ghost use Rattle.engine.specs.Marks.{Fit, marked};

use crate::marks::Marks;
use crate::round::Round;
use crate::sums::{ROUND, Sums};

/// A round of marks, and the fewest ticks that it serves among n in a row, for each n up to a round of them.
#[derive(Debug, Clone, Copy, PartialEq, Eq)]
pub(crate) struct Course {
    pub(crate) round: Round,
    pub(crate) least: [u32; ROUND],
    ghost tabled: { ((n : ℕ) → n ≤ length (marked round.marks) → slice_index least n ≡ fewest (marked round.marks) n) },
}

impl Course {
    ghost use Rattle.cyclic.specs.Ones.{ones};
    ghost use Rattle.engine.specs.Course.{served};

    /// The course of these marks; nothing where they are not fit.
    pub(crate) fn new(marks: &Marks) -> Option<Course>
        ensures { MatchOption result (Fit marks.now → ⊥) (λ c. Fit marks.now × (served c ≡ marked marks.now)) }
    {
        let round = Round::of(marks)?;
        Some(Course {
            round,
            least: Sums::of(&round).least(),
        })
    }

    /// After so many ticks it repeats.
    pub(crate) fn cycle(&self) -> u32
        ensures { result ≡ length (served self.now) }
    {
        self.round.len() as u32
    }

    /// The served ticks in a cycle.
    pub(crate) fn quota(&self) -> u32
        ensures { result ≡ ones (served self.now) 0 (length (served self.now)) }
    {
        self.least[self.round.len()]
    }

    /// The fewest served ticks among so many in a row.
    pub(crate) fn supply(&self, ticks: u32) -> u32
        requires { ticks ≤ 28800 }
        ensures { result ≡ fewest (served self.now) ticks }
    {
        let cycle = self.cycle();
        ticks / cycle * self.quota() + self.least[(ticks % cycle) as usize]
    }
}
