//! A job under one of its possible choices.
ghost use Rattle.std.specs.Prelude.{◌≡◌, ℕ, ◌+◌, ◌≤◌, true, false, length, slice_index_or};
ghost use Rattle.few.specs.Few.{items};
ghost use Rattle.task.specs.Graph.{at};
ghost use Rattle.task.specs.Node.{is_sub_task, ticks};
ghost use Rattle.window.specs.Windows.{deadline_of, offset_of};

use few::few::Few;
use task::job::Job;
use task::node::NODES;
use window::layout::Window;

/// The most branch numbers that a job has: four conditionals with three edges out.
pub const BRANCHES: usize = 81;

/// A job under a choice: the nodes of its concrete graph, their windows, and for each branch number what an arrival reaches.
#[derive(Debug, Clone, Copy, PartialEq, Eq)]
pub struct Plan {
    pub job: Job,
    pub choice: u32,
    // Members and windows side by side, as the concrete graph and its layout give each of them whole.
    pub members: [bool; NODES],
    pub windows: [Window; NODES],
    pub reached: Few<[bool; NODES], BRANCHES>,
    ghost some: { 1 ≤ length (items reached) },
    ghost roomy: { ((v : ℕ) → slice_index_or members v false ≡ true → is_sub_task (at (items job.nodes) v) ≡ true → offset_of windows v + ticks (at (items job.nodes) v) ≤ deadline_of windows v) },
    ghost timely: { ((v : ℕ) → slice_index_or members v false ≡ true → is_sub_task (at (items job.nodes) v) ≡ true → deadline_of windows v ≤ job.deadline) },
}
