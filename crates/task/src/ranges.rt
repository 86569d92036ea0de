//! The ranges of a job's numbers.
ghost use Rattle.std.specs.Prelude.{◌≡◌};
ghost use Rattle.task.specs.Ranges.{fits};

use crate::node::{NODES, Ticks};

/// A belt cycle, in ticks: every period divides it.
pub const BELT_CYCLE: Ticks = 14_400;

/// A number of a job, with what its range depends on.
#[derive(Debug, Clone, Copy, PartialEq, Eq)]
pub enum Field {
    Number(u32),
    Period(Ticks),
    Deadline { period: Ticks, deadline: Ticks },
    Count(u32),
    Tag(u32),
    Work(Ticks),
}

impl Field {
    /// Whether the number lies in its range.
    pub fn is_fit(self) -> bool
        ensures { result ≡ fits self }
    {
        match self {
            Field::Number(number) => (1..=65_535).contains(&number),
            Field::Period(period) => 1 <= period && BELT_CYCLE % period == 0,
            Field::Deadline { period, deadline } => (1..=period).contains(&deadline),
            Field::Count(count) => (1..=NODES as u32).contains(&count),
            Field::Tag(tag) => tag <= 7,
            Field::Work(ticks) => (1..=BELT_CYCLE).contains(&ticks),
        }
    }
}
