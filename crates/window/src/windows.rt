//! The windows of the sub-tasks of a concrete graph.
ghost use Rattle.std.specs.Prelude.{◌≡◌, ℕ, ◌<◌, ◌≤◌, length, if◌then◌else◌};
ghost use Rattle.task.specs.Flaws.{graph};
ghost use Rattle.task.specs.Node.{is_sub_task};
ghost use Rattle.window.specs.Lengths.{IsLengths};
ghost use Rattle.window.specs.Path.{Possible};
ghost use Rattle.window.specs.Recurrences.{Ascends, Laid, Within};
ghost use Rattle.window.specs.Windows.{IsWindows, WindowsHold, deadline_of, offset_of, position};

use crate::greatest::greatest;
use crate::layout::{Layout, Lengths, Window};
use slack::rule::{Position, SlackRule};
use std::array;
use task::job::Job;
use task::node::{NODES, Node, Ticks};
use task::tables::Concrete;

impl Lengths {
    // The number is asked for below 24, as wherever a table over nodes is read: a type for it would be opened at each index.
    /// Where the node `v` stands in a job with the deadline.
    fn position(&self, deadline: Ticks, v: usize) -> Position
        requires { v < 24 }
        ensures { result ≡ position deadline self.now v }
    {
        Position {
            deadline,
            span: self.span,
            depth: self.depth,
            head: self.nodes[v].head,
            tail: self.nodes[v].tail,
            level: self.nodes[v].level,
        }
    }
}

/// When a node is due: a sub-task by the rule, a fork at its offset.
fn due<R: SlackRule>(node: &Node, at: Position, offset: Ticks, rule: &R) -> Ticks
    ensures { result ≡ (if is_sub_task node.now then R.SlackRule.local rule.now at else offset) }
{
    match node {
        Node::SubTask { .. } => rule.local_deadline(at),
        _ => offset,
    }
}

fn windows<R: SlackRule>(
    nodes: &[Node],
    concrete: &Concrete,
    lengths: &Lengths,
    deadline: Ticks,
    rule: &R,
) -> [Window; NODES]
    requires { (length nodes.now ≤ 24) × ((Ascends concrete.now.edges) × (Within (length nodes.now) concrete.now.members)) }
    ensures { (v : ℕ) → Laid nodes.now concrete.now (λ u. R.SlackRule.local rule.now (position deadline lengths.now u)) (offset_of result) (deadline_of result) v }
{
    let mut opens = [0; NODES];
    let mut ends = [0; NODES];
    // Each window rests on the ends of those before it, so the ends stand in a table of their own.
    for v in 0..nodes.len() {
        if concrete.members[v] {
            let offset = greatest(&concrete.edges[v], &ends);
            opens[v] = offset;
            ends[v] = due(&nodes[v], lengths.position(deadline, v), offset, rule);
        }
    }
    array::from_fn(|v| Window {
        offset: opens[v],
        deadline: ends[v],
    })
}

impl Layout {
    /// The lengths and the windows of the concrete graph of a choice.
    pub fn of<R: SlackRule>(job: &Job, choice: u32, rule: &R) -> Layout
        ensures lengths { IsLengths (graph job.now) choice result.lengths }
        ensures windows { IsWindows (graph job.now) choice job.now.deadline (R.SlackRule.local rule.now) result.lengths result.windows }
        ensures holds { Possible (graph job.now) choice job.now.deadline → WindowsHold (graph job.now) choice job.now.deadline result.windows }
    {
        let lengths = Lengths::of(job, choice);
        let concrete = job.concrete(choice);
        let windows = windows(job.graph(), &concrete, &lengths, job.deadline, rule);
        Layout { lengths, windows }
    }
}
