//! The longest paths of a concrete graph.
ghost use Rattle.std.specs.Prelude.{◌≡◌, ℕ, ◌<◌, false, slice_index, slice_index_or};
ghost use Rattle.task.specs.Flaws.{graph};
ghost use Rattle.task.specs.Nodes.{Sound};
ghost use Rattle.task.specs.Tables.{leads};
ghost use Rattle.window.specs.Lengths.{IsLengths};
ghost use Rattle.window.specs.Path.{weigh};
ghost use Rattle.window.specs.Recurrences.{Ascends, Light, Settled, WeightsOf};

use crate::greatest::greatest;
use crate::layout::{Lengths, Longest, Measure};
use std::array;
use task::job::Job;
use task::node::{NODES, Node};
use task::tables::Edges;

impl Measure {
    /// What the node adds to a path.
    fn weigh(self, node: &Node) -> u32
        ensures { result ≡ weigh self node.now }
    {
        match (self, node) {
            (Measure::Work, Node::SubTask { ticks, .. }) => *ticks,
            (Measure::Count, Node::SubTask { .. }) => 1,
            _ => 0,
        }
    }

    /// What each node of the graph adds to a path.
    pub(crate) fn weights(self, nodes: &[Node], members: &[bool; NODES]) -> [u32; NODES]
        requires { Sound nodes.now }
        ensures { WeightsOf self nodes.now members.now result }
    {
        array::from_fn(|v| match nodes.get(v) {
            Some(node) if members[v] => self.weigh(node),
            _ => 0,
        })
    }
}

// That edges ascend is asked for here: `Concrete` has open fields, and a fact in it would ask more of who builds one.
/// The greatest sum of weights on a path that ends at each node.
pub(crate) fn longest_to(edges: &Edges, weights: &[u32; NODES]) -> [u32; NODES]
    requires { (Ascends edges.now) × (Light weights.now) }
    ensures { (v : ℕ) → Settled (leads edges.now) weights.now result v }
{
    let mut to = [0; NODES];
    // Each place rests on the places before it.
    for v in 0..NODES {
        to[v] = weights[v] + greatest(&edges[v], &to);
    }
    to
}

// The number is asked for below 24, as wherever a table over nodes is read: a type for it would be opened at each index.
/// The nodes that an edge leads to from `v`.
fn column(edges: &Edges, v: usize) -> [bool; NODES]
    requires { v < 24 }
    ensures { (w : ℕ) → slice_index_or result w false ≡ leads edges.now v w }
{
    array::from_fn(|w| edges[w][v])
}

/// The greatest sum of weights on a path that begins at each node.
// Not one function with the one before: order and row would both be parameters of a loop of one line.
fn longest_from(edges: &Edges, weights: &[u32; NODES]) -> [u32; NODES]
    requires { (Ascends edges.now) × (Light weights.now) }
    ensures { (v : ℕ) → Settled (λ w u. leads edges.now u w) weights.now result v }
{
    let mut from = [0; NODES];
    // Each place rests on the places after it.
    for v in (0..NODES).rev() {
        from[v] = weights[v] + greatest(&column(edges, v), &from);
    }
    from
}

impl Lengths {
    // A job and the number of a choice, since the number is what callers run over and keep.
    /// The lengths of the concrete graph of a choice.
    pub fn of(job: &Job, choice: u32) -> Lengths
        ensures { IsLengths (graph job.now) choice result }
    {
        let concrete = job.concrete(choice);
        let nodes = job.graph();
        let work = Measure::Work.weights(nodes, &concrete.members);
        let count = Measure::Count.weights(nodes, &concrete.members);
        let head = longest_to(&concrete.edges, &work);
        let from = longest_from(&concrete.edges, &work);
        let level = longest_to(&concrete.edges, &count);
        Lengths {
            nodes: array::from_fn(|v| Longest {
                head: head[v],
                tail: from[v].saturating_sub(work[v]),
                level: level[v],
            }),
            span: greatest(&concrete.members, &head),
            depth: greatest(&concrete.members, &level),
        }
    }
}
