//! One node of a job's graph.
ghost use Rattle.std.specs.Prelude.{◌≡◌, ◌<◌, false, slice_index_or};
ghost use Rattle.task.specs.Node.{after, covers};

/// The most nodes that a job has.
pub const NODES: usize = 24;

/// A length of time or a moment, in whole ticks.
pub type Ticks = u32;

/// The lower nodes that a node comes after: place u is true where it comes after u.
pub type After = [bool; NODES];

/// A node and the lower nodes that it comes after.
#[derive(Debug, Clone, Copy, PartialEq, Eq)]
pub enum Node {
    /// Work for an engine of the tag, for at most so many ticks.
    SubTask {
        tag: u32,
        ticks: Ticks,
        after: After,
    },
    /// A fork of which a choice keeps one edge out.
    Alternative {
        after: After,
    },
    /// A fork of which each arrival takes one edge out.
    Conditional {
        after: After,
    },
}

/// The node that fills a table after the last one.
pub const BLANK: Node = Node::SubTask {
    tag: 0,
    ticks: 1,
    after: [false; NODES],
};

impl Node {
    /// The lower nodes that it comes after.
    pub(crate) fn after(&self) -> &After
        ensures { result.now ≡ after self.now }
    {
        match self {
            Node::SubTask { after, .. }
            | Node::Alternative { after }
            | Node::Conditional { after } => after,
        }
    }

    /// Whether it comes after the node `u`.
    pub(crate) fn comes_after(&self, u: usize) -> bool
        ensures { result ≡ slice_index_or (after self.now) u false }
    {
        self.after().get(u).copied().unwrap_or(false)
    }
}

// A kind and no closure: the definitions of choices and of branch numbers go by it.
/// What a number picks edges of: a choice of the alternatives, a branch number of the conditionals.
#[derive(Debug, Clone, Copy, PartialEq, Eq)]
pub enum Numbering {
    Choice,
    Branch,
}

impl Numbering {
    /// Whether such a number picks one edge out of the node.
    pub(crate) fn is_over(self, node: &Node) -> bool
        ensures { result ≡ covers self node.now }
    {
        matches!(
            (self, node),
            (Numbering::Choice, Node::Alternative { .. })
                | (Numbering::Branch, Node::Conditional { .. })
        )
    }
}
