//! What a slack rule answers, and from what.
ghost use Rattle.std.specs.Prelude.{◌≡◌, ℕ, true, false};
ghost use Rattle.slack.specs.declared.rule.Position.{Position};
ghost use Rattle.slack.specs.Rule.{Lawful, bounded};

/// The longest deadline of a job, in ticks. It stands here too, since this crate knows no other.
const LONGEST: u32 = 14_400;

/// The most sub-tasks of a job. It stands here too, since this crate knows no other.
const MOST: u32 = 24;

/// Where a sub-task stands in its concrete graph, in ticks and sub-tasks.
#[derive(Debug, Clone, Copy, PartialEq, Eq)]
pub struct Position {
    /// The deadline of the job.
    pub deadline: u32,
    /// The largest head of the graph.
    pub span: u32,
    /// The largest level of the graph.
    pub depth: u32,
    /// The largest sum of ticks on a path that ends at the sub-task, itself included.
    pub head: u32,
    /// The largest sum of ticks on a path after it.
    pub tail: u32,
    /// The largest number of sub-tasks on a path that ends at it.
    pub level: u32,
}

impl Position {
    /// Whether the six numbers can be those of a sub-task. No sum of them is made, since it might not fit.
    pub fn is_bounded(&self) -> bool
        ensures { result ≡ bounded self.now }
    {
        1 <= self.head
            && self.head <= self.span
            && self.tail <= self.span - self.head
            && self.span <= self.deadline
            && self.deadline <= LONGEST
            && 1 <= self.level
            && self.level <= self.depth
            && self.depth <= MOST
    }

    /// What a rule gives inside the bounds; outside them, the deadline of the job.
    pub(crate) fn within<F: FnOnce(Position) -> u32>(self, rule: F) -> u32
        requires { bounded self ≡ true → F.pre rule self }
        ensures inside { bounded self ≡ true → F.post rule self result }
        ensures outside { bounded self ≡ false → result ≡ self.deadline }
    {
        if self.is_bounded() {
            rule(self)
        } else {
            self.deadline
        }
    }
}

/// A rule that gives each sub-task a deadline of its own.
pub trait SlackRule {
    /// The local deadline as a function of the six numbers.
    ghost local: { Self → Position → ℕ };

    /// What each rule keeps.
    ghost laws: { (rule : Self) → Lawful (local rule) };

    /// The local deadline of a sub-task.
    fn local_deadline(&self, at: Position) -> u32
        ensures { result ≡ local self.now at };
}
