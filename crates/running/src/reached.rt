//! The sub-tasks that an arrival reaches.
ghost use Rattle.std.specs.Prelude.{◌≡◌, ◌<◌, Some, None, length, map, if◌then◌else◌, slice_index_or};
ghost use Rattle.dispatch.specs.Opening.{sub_task};
ghost use Rattle.few.specs.Few.{items};
ghost use Rattle.plan.specs.Plan.{nodes_of};
ghost use Rattle.running.specs.Reached.{is_reached, reached_at, reached_of};
ghost use Rattle.std.specs.Option.{option_map};

use dispatch::sub_task::SubTask;
use few::few::Few;
use resident::resident::Resident;
use task::node::{NODES, Node};

/// A sub-task that fills the places of a list after the last one.
const BLANK: SubTask = SubTask {
    node: 0,
    engine: 0,
    offset: 0,
    deadline: 0,
    ticks: 0,
};

/// The sub-task at a node, if it is in the concrete graph and the row says that it is reached.
fn reached_at(resident: &Resident, row: &[bool; NODES], v: usize) -> Option<SubTask>
    requires { v < length (nodes_of resident.now.plan) }
    ensures { option_map sub_task result ≡ (if is_reached resident.now.plan row.now v then Some (reached_at resident.now v) else None) }
{
    let plan = &resident.plan;
    let is_member = plan.members[v];
    let is_kept = row[v];
    match plan.job.graph().get(v) {
        Some(Node::SubTask { tag, ticks, .. }) if is_member && is_kept => {
            let window = plan.windows[v];
            Some(SubTask {
                node: v,
                // Every part of a placed job sits on an engine.
                engine: resident.engine_of(*tag).unwrap(),
                offset: window.offset,
                deadline: window.deadline,
                ticks: *ticks,
            })
        }
        _ => None,
    }
}

/// The sub-tasks that the row says are reached, by rising node.
pub(crate) fn reached(resident: &Resident, row: &[bool; NODES]) -> Few<SubTask, NODES>
    ensures { map sub_task (items result) ≡ reached_of resident.now row.now }
{
    let mut tasks = Few::new(BLANK);
    for v in 0..resident.plan.job.graph().len() {
        if let Some(task) = reached_at(resident, row, v) {
            tasks.push(task).unwrap();
        }
    }
    tasks
}
