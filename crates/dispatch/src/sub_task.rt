//! A sub-task that an arrival opens.
ghost use Rattle.std.specs.Prelude.{◌<◌, ◌≤◌};

use task::node::Ticks;

/// A sub-task that an arrival opens: its node, its engine, its window counted from the arrival, and its work.
#[derive(Debug, Clone, Copy, PartialEq, Eq)]
pub struct SubTask {
    pub node: usize,
    pub engine: usize,
    pub offset: Ticks,
    pub deadline: Ticks,
    pub ticks: Ticks,
    ghost placed: { engine < 16 },
    ghost early: { offset ≤ 14400 },
    ghost short: { deadline ≤ 14400 },
}
