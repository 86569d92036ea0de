//! The same slack to each level.
ghost use Rattle.slack.specs.Even.{even};
ghost use Rattle.slack.specs.EvenLaws.{even_lawful};

use crate::rule::{Position, SlackRule};

/// A sub-task gets its head and, of the ticks that the longest path leaves free, an equal part for each level.
#[derive(Debug, Clone, Copy, PartialEq, Eq)]
pub struct Even;

impl SlackRule for Even {
    ghost local = { λ _ p. even p };

    ghost laws = { λ _. even_lawful };

    #[tactic(auto, using(crate::specs::Tested::bounds_if_tested))]
    fn local_deadline(&self, at: Position) -> u32 {
        at.within(|at| {
            if at.tail == 0 {
                at.deadline
            } else {
                at.head + (at.deadline - at.span) * at.level / at.depth
            }
        })
    }
}
