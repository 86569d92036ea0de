//! The open sub-tasks of a job.
ghost use Rattle.std.specs.Prelude.{◌<◌, ◌≤◌};

use crate::phase::Phase;
use task::node::{NODES, Ticks};

/// An open sub-task: its node, its engine, its window on the clock of the board, and where it stands.
#[derive(Debug, Clone, Copy, PartialEq, Eq)]
pub struct Open {
    pub node: usize,
    pub engine: usize,
    pub release: Ticks,
    pub due: Ticks,
    pub phase: Phase,
    ghost placed: { engine < 16 },
}

/// A job, when it arrived last since the start, and the sub-tasks that this arrival opened: they lie in the first `len` places.
#[derive(Debug, Clone, Copy, PartialEq, Eq)]
pub struct Slot {
    pub(crate) job: u32,
    pub(crate) last: Option<Ticks>,
    pub(crate) tasks: [Open; NODES],
    pub(crate) len: usize,
    ghost few: { len ≤ 24 },
}

/// An open sub-task that fills the places of a slot after the last one.
pub(crate) const BLANK: Open = Open {
    node: 0,
    engine: 0,
    release: 0,
    due: 0,
    phase: Phase::Finished,
};
