//! Edges of a graph, and how many there are: of slices, since nodes are asked before they make a job.
ghost use Rattle.std.specs.Prelude.{◌≡◌, length};
ghost use Rattle.task.specs.Graph.{at, count_below, ins, rank};
ghost use Rattle.task.specs.Node.{covers};

use crate::node::{Node, Numbering};

/// How many edges lead from `u` to nodes below `v`.
pub(crate) fn rank(nodes: &[Node], u: usize, v: usize) -> usize
    ensures { result ≡ rank nodes.now u v }
{
    // Cut first: a `take` would count beside the nodes at each turn.
    nodes[..v.min(nodes.len())]
        .iter()
        .filter(|node| node.comes_after(u))
        .count()
}

/// How many edges lead to `v` from nodes below it.
pub(crate) fn edges_in(nodes: &[Node], v: usize) -> usize
    ensures { result ≡ ins nodes.now v }
{
    let Some(node) = nodes.get(v) else {
        return 0;
    };
    node.after().iter().take(v).filter(|edge| **edge).count()
}

/// How many forks there are of which such a number picks an edge.
pub(crate) fn forks(nodes: &[Node], numbering: Numbering) -> usize
    ensures { result ≡ count_below (λ v. covers numbering (at nodes.now v)) (length nodes.now) }
{
    nodes.iter().filter(|node| numbering.is_over(node)).count()
}
