//! A job, and what makes one sound.
ghost use Rattle.std.specs.Prelude.{◌≡◌, true, length};
ghost use Rattle.few.specs.Few.{items};
ghost use Rattle.task.specs.Graph.{Upward};
ghost use Rattle.task.specs.Nodes.{ForksFit, NumbersFit, few_forks};
ghost use Rattle.task.specs.Ranges.{fits};
ghost use Rattle.task.specs.declared.ranges.Field.TheVariants.{Number, Period, Deadline, Count};

use crate::node::{NODES, Node, Ticks};
use few::few::Few;

/// A job whose numbers lie in their ranges and whose forks are right.
#[derive(Debug, Clone, Copy, PartialEq, Eq)]
pub struct Job {
    pub number: u32,
    pub period: Ticks,
    pub deadline: Ticks,
    pub nodes: Few<Node, NODES>,
    ghost numbered: { fits (Number number) ≡ true },
    ghost periodic: { fits (Period period) ≡ true },
    ghost due: { fits (Deadline period deadline) ≡ true },
    ghost counted: { fits (Count (length (items nodes))) ≡ true },
    ghost ranged: { NumbersFit (items nodes) },
    ghost upward: { Upward (items nodes) },
    ghost forked: { ForksFit (items nodes) },
    ghost few: { few_forks (items nodes) ≡ true },
}
