//! The sub-tasks of one tag.
ghost use Rattle.std.specs.Prelude.{◌≡◌, ℕ, ◌≤◌, map, slice_index};
ghost use Rattle.few.specs.Few.{items};

use few::few::Few;
use task::node::{NODES, Ticks};
use window::layout::Window;

/// A sub-task of a plan: its node, its window counted from an arrival, and its work.
#[derive(Debug, Clone, Copy, PartialEq, Eq)]
pub struct Task {
    pub node: usize,
    pub window: Window,
    pub ticks: Ticks,
}

/// A part: the sub-tasks of the concrete graph with one tag, by rising node.
#[derive(Debug, Clone, Copy, PartialEq, Eq)]
pub struct Part {
    pub tasks: Few<Task, NODES>,
    ghost light: { ((k : ℕ) → slice_index (map (λ t. t.ticks) (items tasks)) k ≤ 14400) },
}
