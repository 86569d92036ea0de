//! Slack in proportion to work.
ghost use Rattle.slack.specs.Proportional.{proportional};
ghost use Rattle.slack.specs.ProportionalLaws.{proportional_lawful};

use crate::rule::{Position, SlackRule};

/// A sub-task gets the part of the deadline that its head has of the longest path through it.
#[derive(Debug, Clone, Copy, PartialEq, Eq)]
pub struct Proportional;

impl SlackRule for Proportional {
    ghost local = { λ _ p. proportional p };

    ghost laws = { λ _. proportional_lawful };

    fn local_deadline(&self, at: Position) -> u32 {
        at.within(|at| at.deadline * at.head / (at.head + at.tail))
    }
}
