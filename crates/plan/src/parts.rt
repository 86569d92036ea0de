//! The parts of a plan.
ghost use Rattle.std.specs.Prelude.{◌≡◌, ◌<◌, length, false, ◌&&◌, if◌then◌else◌, Some, None, slice_index_or};
ghost use Rattle.plan.specs.Part.{part_of, tagged, task_at, tasks_in};
ghost use Rattle.plan.specs.Plan.{nodes_of};
ghost use Rattle.task.specs.Graph.{at};

use crate::part::{Part, Task};
use crate::plan::Plan;
use few::few::Few;
use task::node::{NODES, Node};
use window::layout::Window;

/// A task that fills the places of a list after the last one.
const BLANK: Task = Task {
    node: 0,
    window: Window {
        offset: 0,
        deadline: 0,
    },
    ticks: 0,
};

impl Plan {
    /// The sub-task at a node; nothing where it is outside the concrete graph, a fork, or has another tag.
    fn task(&self, tag: u32, v: usize) -> Option<Task>
        requires { v < length (nodes_of self.now) }
        ensures { result ≡ (if slice_index_or self.now.members v false && tagged tag (at (nodes_of self.now) v) then Some (task_at self.now v) else None) }
    {
        let is_member = self.members[v];
        match self.job.graph().get(v) {
            Some(
                Node::SubTask {
                    tag: own,
                    ticks,
                    ..
                },
            ) if is_member && *own == tag => Some(Task {
                node: v,
                window: self.windows[v],
                ticks: *ticks,
            }),
            _ => None,
        }
    }

    /// The part of a tag.
    pub fn part(&self, tag: u32) -> Part
        ensures { tasks_in result ≡ part_of self.now tag }
    {
        let mut tasks: Few<Task, NODES> = Few::new(BLANK);
        // The number of a node is what is asked for.
        for v in 0..self.job.graph().len() {
            if let Some(task) = self.task(tag, v) {
                tasks.push(task).unwrap();
            }
        }
        Part { tasks }
    }
}
