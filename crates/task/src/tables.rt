//! Tables over the nodes of a job.
use crate::node::NODES;

/// For each node the nodes that an edge leads from.
pub type Edges = [[bool; NODES]; NODES];

// Tables over all nodes: memory is fixed, and each node has its place.
/// The nodes of a concrete graph and the kept edges between them.
#[derive(Debug, Clone, Copy, PartialEq, Eq)]
pub struct Concrete {
    pub members: [bool; NODES],
    pub edges: Edges,
}
