//! Reading a job from its text.
ghost use Rattle.std.specs.Prelude.{◌≡◌, ◌<◌, ◌≤◌, List, length, take, MatchResult};
ghost use Rattle.few.specs.Few.{items};
ghost use Rattle.task.specs.declared.node.Node.{Node};
ghost use Rattle.task.specs.Flaws.{HeaderFits, InRange, MadeOf};
ghost use Rattle.text.specs.JobText.{Forked, NodeFits, NodesFit, Reads, Refused, header_slots, node_slots, nodes_slots};
ghost use Rattle.text.specs.Take.{Refuses, Takes};
ghost use Rattle.text.specs.declared.job_text.Header.{Header};

use crate::fault::Fault;
use crate::key::Key;
use crate::lines::Lines;
use crate::value::Kind;
use few::few::Few;
use task::job::Job;
use task::node::{BLANK, NODES, Node};
use task::sound::Flaw;

/// What a job text says before its nodes.
#[derive(Debug, Clone, Copy, PartialEq, Eq)]
struct Header {
    number: u32,
    period: u32,
    deadline: u32,
    count: u32,
}

impl Lines<'_> {
    /// Takes the lines before the nodes.
    fn header(&mut self) -> Result<Header, Fault>
        ensures { MatchResult result (λ h. Takes (header_slots h) self.old self.new × HeaderFits h.number h.period h.deadline h.count) (λ f. (h : Header) × Refuses (header_slots h) self.old f) }
    {
        let number = self.number(Key::Job)?;
        let period = self.number(Key::Period)?;
        let deadline = self.number(Key::Deadline { period })?;
        let count = self.number(Key::Nodes)?;
        Ok(Header {
            number,
            period,
            deadline,
            count,
        })
    }

    // The number is asked for below 24, as wherever a table over nodes is read: a type for it would be opened at each index.
    /// Takes the lines of the node `v`.
    fn node(&mut self, v: usize) -> Result<Node, Fault>
        requires { v < 24 }
        ensures { MatchResult result (λ n. Takes (node_slots v n) self.old self.new × NodeFits v n) (λ f. (n : Node) × Refuses (node_slots v n) self.old f) }
    {
        match self.kind()? {
            Kind::SubTask => {
                let tag = self.number(Key::Tag)?;
                let ticks = self.number(Key::Ticks)?;
                let after = self.after(v)?;
                Ok(Node::SubTask { tag, ticks, after })
            }
            Kind::Alternative => {
                let after = self.after(v)?;
                Ok(Node::Alternative { after })
            }
            Kind::Conditional => {
                let after = self.after(v)?;
                Ok(Node::Conditional { after })
            }
        }
    }

    /// Takes the lines of so many nodes.
    fn nodes(&mut self, count: usize) -> Result<Few<Node, NODES>, Fault>
        requires { count ≤ 24 }
        ensures { MatchResult result (λ ns. (length (items ns) ≡ count) × Takes (nodes_slots 0 (items ns)) self.old self.new × NodesFit (items ns)) (λ f. (ns : List Node) × (length ns ≡ count) × Refuses (nodes_slots 0 ns) self.old f) }
    {
        let mut nodes = Few::new(BLANK);
        for v in 0..count {
            let node = self.node(v)?;
            nodes.push(node).unwrap();
        }
        Ok(nodes)
    }
}

/// The job of these numbers and nodes, which lie in their ranges.
fn make_job(header: Header, nodes: &[Node]) -> Result<Job, Fault>
    requires { InRange header.number header.period header.deadline nodes.now }
    ensures { MatchResult result (MadeOf header.number header.period header.deadline nodes.now) (Forked nodes.now) }
{
    Job::new(header.number, header.period, header.deadline, nodes).map_err(|flaw| match flaw {
        Flaw::Fork(v) => Fault::Fork { node: v as u32 },
        // A flaw of range does not come: the lines were in range.
        Flaw::Forks | Flaw::Range => Fault::Forks,
    })
}

/// The job that the text writes.
pub fn read_job(text: &[u8]) -> Result<Job, Fault>
    ensures { MatchResult result (Reads text.now) (Refused text.now) }
{
    let mut lines = Lines::of(text)?;
    let header = lines.header()?;
    let nodes = lines.nodes(header.count as usize)?;
    lines.end()?;
    make_job(header, &nodes)
}
