//! What is known of the nodes of a concrete graph.
use task::node::{NODES, Ticks};

// 0 and no option where there is no node, as for its window.
/// The lengths of the longest paths at a node. A node outside the graph has 0.
#[derive(Debug, Clone, Copy, PartialEq, Eq)]
pub struct Longest {
    /// The largest sum of ticks on a path that ends at the node, itself included.
    pub head: Ticks,
    /// The largest sum of ticks on a path after the node.
    pub tail: Ticks,
    /// The largest number of sub-tasks on a path that ends at the node.
    pub level: u32,
}

/// The lengths of the longest paths of a concrete graph.
#[derive(Debug, Clone, Copy, PartialEq, Eq)]
pub struct Lengths {
    pub nodes: [Longest; NODES],
    /// The largest head.
    pub span: Ticks,
    /// The largest level.
    pub depth: u32,
}

// 0 and no option where there is no node: the greatest end of the predecessors is then one fold.
/// The window of a node, counted from the arrival. A fork's end is its offset, and a node outside the graph has 0.
#[derive(Debug, Clone, Copy, PartialEq, Eq)]
pub struct Window {
    /// From when on the node may run.
    pub offset: Ticks,
    /// When it is due.
    pub deadline: Ticks,
}

/// The lengths and the windows of a concrete graph.
#[derive(Debug, Clone, Copy, PartialEq, Eq)]
pub struct Layout {
    pub lengths: Lengths,
    pub windows: [Window; NODES],
}

// A kind and no closure: the definitions of work and of counts go by it.
/// What a node adds to the length of a path: its ticks, or 1 where it is a sub-task.
#[derive(Debug, Clone, Copy, PartialEq, Eq)]
pub enum Measure {
    Work,
    Count,
}
