//! What is compared where an engine is to run one of several sub-tasks.
ghost use Rattle.std.specs.Prelude.{◌≡◌};
ghost use Rattle.dispatch.specs.Candidate.{key, leads, named};
ghost use Rattle.std.specs.Option.{option_map};
ghost use Rattle.runs.specs.Next.{before};

use task::node::Ticks;

/// A sub-task that an engine runs: the number of its job, and its node.
#[derive(Debug, Clone, Copy, PartialEq, Eq)]
pub struct Next {
    pub job: u32,
    pub node: usize,
}

/// A ready sub-task. The less runs first: the earlier due, then the lower job, then the lower node.
#[derive(Debug, Clone, Copy, PartialEq, Eq, PartialOrd, Ord)]
pub(crate) struct Candidate {
    pub(crate) due: Ticks,
    pub(crate) job: u32,
    pub(crate) node: usize,
}

impl Candidate {
    /// The sub-task without the moment when it is due.
    pub(crate) fn named(self) -> Next
        ensures { result ≡ named (key self) }
    {
        Next {
            job: self.job,
            node: self.node,
        }
    }

    /// Whether it runs before the other.
    pub(crate) fn is_before(self, other: Candidate) -> bool
        ensures { result ≡ before (key self) (key other) }
    {
        if self.due != other.due {
            self.due < other.due
        } else if self.job != other.job {
            self.job < other.job
        } else {
            self.node < other.node
        }
    }

    /// Whether it runs before what was found so far.
    pub(crate) fn leads(self, found: Option<Candidate>) -> bool
        ensures { result ≡ leads (key self) (option_map key found) }
    {
        match found {
            Some(found) => self.is_before(found),
            None => true,
        }
    }
}
