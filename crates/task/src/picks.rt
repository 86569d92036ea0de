//! The edges that a choice or a branch number picks at the forks.
ghost use Rattle.std.specs.Prelude.{◌≡◌, ℕ, ◌<◌, ◌≤◌, length, slice_index};
ghost use Rattle.task.specs.Picks.{pick};

use crate::node::{NODES, Node, Numbering};

/// A number, and which edge it picks out of each fork that it covers.
#[derive(Drop)]
pub(crate) struct Picks<'a> {
    pub(crate) nodes: &'a [Node],
    pub(crate) numbering: Numbering,
    pub(crate) number: u32,
    // A place for every node, as each table over nodes has.
    pub(crate) ranks: [usize; NODES],
    ghost few: { length nodes.now ≤ 24 },
    ghost picked: { ((u : ℕ) → u < length nodes.now → slice_index ranks u ≡ pick numbering nodes.now number u) },
}
