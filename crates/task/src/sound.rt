//! Making a job of its numbers and nodes.
ghost use Rattle.std.specs.Prelude.{◌≡◌, ℕ, ◌<◌, ◌≤◌, true, false, ◌&&◌, length, Decides, MatchOption, MatchResult};
ghost use Rattle.task.specs.Flaws.{Flawed, HeaderFits, MadeOf, graph};
ghost use Rattle.task.specs.Graph.{Upward};
ghost use Rattle.task.specs.Nodes.{Below, ForksFit, NumbersFit, Sound, few_forks, fork_fits};
ghost use Rattle.task.specs.Ranges.{numbers_fit};

use crate::graph::{edges_in, forks, rank};
use crate::job::Job;
use crate::node::{After, BLANK, NODES, Node, Numbering, Ticks};
use crate::ranges::Field;
use few::few::Few;
use std::error::Error;
use std::fmt;

/// Why numbers and nodes make no job.
#[derive(Debug, Clone, Copy, PartialEq, Eq)]
pub enum Flaw {
    /// A number or an edge is out of range.
    Range,
    /// This fork, the first at fault, has no edge in, or fewer than two or more than three out.
    Fork(usize),
    /// There are more than four alternatives or more than four conditionals.
    Forks,
}

impl fmt::Display for Flaw {
    fn fmt<W: fmt::Write>(&self, f: &mut fmt::Formatter<W>) -> fmt::Result {
        match self {
            Flaw::Range => write!(f, "a number or an edge is out of range"),
            Flaw::Fork(node) => write!(f, "the edges of the fork {node} are too few or too many"),
            Flaw::Forks => write!(f, "there are too many forks"),
        }
    }
}

impl Error for Flaw {}

fn is_below(after: &After, v: usize) -> bool
    ensures { Decides result (Below v after.now) }
{
    after.iter().enumerate().all(|(u, edge)| !*edge || u < v)
}

fn are_numbers_fit(node: &Node) -> bool
    ensures { result ≡ numbers_fit node.now }
{
    match node {
        Node::SubTask { tag, ticks, .. } => Field::Tag(*tag).is_fit()
            && Field::Work(*ticks).is_fit(),
        _ => true,
    }
}

fn are_nodes_fit(nodes: &[Node]) -> bool
    ensures { Decides result (NumbersFit nodes.now × Upward nodes.now) }
{
    nodes.iter().enumerate().all(|(v, node)| are_numbers_fit(node) && is_below(node.after(), v))
}

// How many there are is asked of a `usize`, before it is a field.
fn is_header_fit(number: u32, period: Ticks, deadline: Ticks, count: usize) -> bool
    ensures { Decides result (HeaderFits number period deadline count) }
{
    Field::Number(number).is_fit()
        && Field::Period(period).is_fit()
        && (Field::Deadline { period, deadline }).is_fit()
        && (1..=NODES).contains(&count)
}

fn is_fork_fit(nodes: &[Node], v: usize) -> bool
    ensures { result ≡ fork_fits nodes.now v }
{
    match nodes.get(v) {
        Some(Node::Alternative { .. } | Node::Conditional { .. }) => {
            1 <= edges_in(nodes, v) && (2..=3).contains(&rank(nodes, v, nodes.len()))
        },
        _ => true,
    }
}

fn first_wrong_fork(nodes: &[Node]) -> Option<usize>
    ensures { MatchOption result ((v : ℕ) → v < length nodes.now → fork_fits nodes.now v ≡ true) (λ v. (v < length nodes.now) × (fork_fits nodes.now v ≡ false) × ((u : ℕ) → u < v → fork_fits nodes.now u ≡ true)) }
{
    (0..nodes.len()).find(|v| !is_fork_fit(nodes, *v))
}

fn are_forks_few(nodes: &[Node]) -> bool
    ensures { result ≡ few_forks nodes.now }
{
    forks(nodes, Numbering::Choice) <= 4 && forks(nodes, Numbering::Branch) <= 4
}

impl Job {
    /// The nodes of the job.
    pub fn graph(&self) -> &[Node]
        ensures nodes { result.now ≡ graph self.now }
        ensures sound { Sound result.now }
    {
        self.nodes.as_slice()
    }

    /// The job of these numbers and nodes.
    pub fn new(number: u32, period: Ticks, deadline: Ticks, nodes: &[Node]) -> Result<Job, Flaw>
        ensures { MatchResult result (MadeOf number period deadline nodes.now) (Flawed number period deadline nodes.now) }
    {
        if !is_header_fit(number, period, deadline, nodes.len()) || !are_nodes_fit(nodes) {
            return Err(Flaw::Range);
        }
        if let Some(v) = first_wrong_fork(nodes) {
            return Err(Flaw::Fork(v));
        }
        if !are_forks_few(nodes) {
            return Err(Flaw::Forks);
        }
        Ok(Job {
            number,
            period,
            deadline,
            nodes: Few::from_slice(BLANK, nodes).unwrap(),
        })
    }
}
