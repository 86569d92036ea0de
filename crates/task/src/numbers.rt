//! How many choices and branch numbers there are, and what one keeps.
ghost use Rattle.std.specs.Prelude.{◌≡◌, ℕ, ◌<◌, ◌&&◌, false, length, slice_index, slice_index_or};
ghost use Rattle.task.specs.Flaws.{graph};
ghost use Rattle.task.specs.Picks.{keeps, numbers, pick, ways};
ghost use Rattle.task.specs.declared.node.Numbering.TheVariants.{Choice, Branch};

use crate::graph::rank;
use crate::job::Job;
use crate::node::{After, NODES, Node, Numbering};
use crate::picks::Picks;
use std::array;

/// In how many ways such a number may pick at a node.
fn ways(nodes: &[Node], numbering: Numbering, u: usize) -> usize
    ensures { result ≡ ways numbering nodes.now u }
{
    match nodes.get(u) {
        Some(node) if numbering.is_over(node) => rank(nodes, u, nodes.len()),
        _ => 1,
    }
}

impl Job {
    fn numbers(&self, numbering: Numbering) -> u32
        ensures { result ≡ numbers numbering (graph self.now) }
    {
        let nodes = self.graph();
        let mut total = 1;
        // From the last node on, as the numbers are counted, so no product on the way is above 81: `product` leaves its bound open.
        for u in (0..nodes.len()).rev() {
            total *= ways(nodes, numbering, u);
        }
        total as u32
    }

    /// How many choices there are: one edge of every alternative.
    pub fn choices(&self) -> u32
        ensures { result ≡ numbers Choice (graph self.now) }
    {
        self.numbers(Numbering::Choice)
    }

    /// How many branch numbers there are: one edge of every conditional.
    pub fn branches(&self) -> u32
        ensures { result ≡ numbers Branch (graph self.now) }
    {
        self.numbers(Numbering::Branch)
    }

    /// Which edge out of each fork the number picks.
    fn ranks(&self, numbering: Numbering, number: u32) -> [usize; NODES]
        ensures { (u : ℕ) → u < length (graph self.now) → slice_index result u ≡ pick numbering (graph self.now) number u }
    {
        let nodes = self.graph();
        let mut ranks = [0; NODES];
        let mut rest = number as usize;
        // Each place takes what the places after it leave of the number.
        for u in (0..nodes.len()).rev() {
            let ways = ways(nodes, numbering, u);
            ranks[u] = rest % ways;
            rest /= ways;
        }
        ranks
    }

    /// What the number picks.
    pub(crate) fn picks(&self, numbering: Numbering, number: u32) -> Picks<'_>
        ensures nodes { result.nodes.now ≡ graph self.now }
        ensures numbering { result.numbering ≡ numbering }
        ensures number { result.number ≡ number }
    {
        Picks {
            nodes: self.graph(),
            numbering,
            number,
            ranks: self.ranks(numbering, number),
        }
    }
}

impl Picks<'_> {
    /// Whether the number keeps an edge.
    fn keeps(&self, u: usize, v: usize) -> bool
        ensures { result ≡ keeps self.now.numbering self.now.nodes.now self.now.number u v }
    {
        match self.nodes.get(u) {
            Some(node) if self.numbering.is_over(node) => rank(self.nodes, u, v) == self.ranks[u],
            _ => true,
        }
    }

    /// The edges to `v` that the number keeps, of these.
    pub(crate) fn row(&self, v: usize, edges: &After) -> After
        ensures { (u : ℕ) → slice_index_or result u false ≡ (slice_index_or edges.now u false && keeps self.now.numbering self.now.nodes.now self.now.number u v) }
    {
        array::from_fn(|u| edges[u] && self.keeps(u, v))
    }
}
