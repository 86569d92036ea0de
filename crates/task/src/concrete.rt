//! The concrete graph of a choice, and what an arrival reaches.
ghost use Rattle.std.specs.Prelude.{◌≡◌, ℕ, ◌<◌, false, ◌&&◌, ◌⊎◌, MatchBool, slice_index_or};
ghost use Rattle.task.specs.Concrete.{IsConcrete, Led, Reached, Rises};
ghost use Rattle.task.specs.Flaws.{graph};
ghost use Rattle.task.specs.Graph.{edge};
ghost use Rattle.task.specs.Picks.{by_both, by_choice, keeps};
ghost use Rattle.task.specs.Tables.{Apart, Free, Meets, SomeOf, Tells, leads};

use crate::job::Job;
use crate::node::{After, NODES, Node, Numbering};
use crate::tables::{Concrete, Edges};
use std::array;

fn both(a: &After, b: &After) -> After
    ensures { (u : ℕ) → slice_index_or result u false ≡ (slice_index_or a.now u false && slice_index_or b.now u false) }
{
    array::from_fn(|u| a[u] && b[u])
}

fn is_empty(row: &After) -> bool
    ensures { MatchBool result (Free row.now) (SomeOf row.now) }
{
    !row.contains(&true)
}

/// Whether a node comes after none, or a kept edge leads to it from one of the members.
fn is_led(after: &After, edges: &After, members: &[bool; NODES]) -> bool
    ensures { MatchBool result (Free after.now ⊎ Meets edges.now members.now) (SomeOf after.now × Apart edges.now members.now) }
{
    is_empty(after) || !is_empty(&both(edges, members))
}

/// The kept edges from these nodes.
fn among(edges: &Edges, members: &[bool; NODES]) -> Edges
    ensures { (u v : ℕ) → leads result u v ≡ (leads edges.now u v && slice_index_or members.now u false) }
{
    array::from_fn(
        |v| -> After
            requires { v < 24 }
            ensures { (u : ℕ) → slice_index_or result u false ≡ (leads edges.entry.now u v && slice_index_or members.entry.now u false) }
        { both(&edges[v], members) },
    )
}

impl Job {
    // That the kept edges rise stands in the clauses: a table of edges does not know its job.
    fn kept_by_choice(&self, choice: u32) -> Edges
        ensures same { (u v : ℕ) → leads result u v ≡ by_choice (graph self.now) choice u v }
        ensures rises { Rises (graph self.now) (leads result) }
    {
        let nodes = self.graph();
        let choice = self.picks(Numbering::Choice, choice);
        // Only the rows of nodes are filtered: a job often has few of the 24.
        array::from_fn(
            |v| -> After
                requires { v < 24 }
                ensures { (u : ℕ) → slice_index_or result u false ≡ (edge nodes.entry.now u v && keeps choice.entry.numbering choice.entry.nodes.now choice.entry.number u v) }
            {
                match nodes.get(v) {
                    Some(node) => choice.row(v, node.after()),
                    None => [false; NODES],
                }
            },
        )
    }

    fn kept_by_both(&self, choice: u32, branch: u32) -> Edges
        ensures same { (u v : ℕ) → leads result u v ≡ by_both (graph self.now) choice branch u v }
        ensures rises { Rises (graph self.now) (leads result) }
    {
        let nodes = self.graph();
        let choice = self.picks(Numbering::Choice, choice);
        let branch = self.picks(Numbering::Branch, branch);
        array::from_fn(
            |v| -> After
                requires { v < 24 }
                ensures { (u : ℕ) → slice_index_or result u false ≡ ((edge nodes.entry.now u v && keeps choice.entry.numbering choice.entry.nodes.now choice.entry.number u v) && keeps branch.entry.numbering branch.entry.nodes.now branch.entry.number u v) }
            {
                match nodes.get(v) {
                    Some(node) => branch.row(v, &choice.row(v, node.after())),
                    None => [false; NODES],
                }
            },
        )
    }

    /// The nodes that the kept edges lead to, from those without an edge in.
    fn led(&self, edges: &Edges) -> [bool; NODES]
        requires { Rises (graph self.now) (leads edges.now) }
        ensures { Tells (Led (graph self.now) (leads edges.now)) result }
    {
        let nodes = self.graph();
        let mut members = [false; NODES];
        // Each place rests on the places before it.
        for v in 0..nodes.len() {
            members[v] = is_led(nodes[v].after(), &edges[v], &members);
        }
        members
    }

    // A job and the number of a choice, since the number is what callers run over and keep.
    /// The concrete graph of a choice.
    pub fn concrete(&self, choice: u32) -> Concrete
        ensures { IsConcrete (graph self.now) choice result }
    {
        let kept = self.kept_by_choice(choice);
        let members = self.led(&kept);
        Concrete {
            members,
            edges: among(&kept, &members),
        }
    }

    /// What an arrival with the branch number reaches, of the concrete graph of the choice.
    pub fn reached(&self, choice: u32, branch: u32) -> [bool; NODES]
        ensures { Tells (Reached (graph self.now) choice branch) result }
    {
        self.led(&self.kept_by_both(choice, branch))
    }
}
