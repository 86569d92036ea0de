//! Which choices are possible.
ghost use Rattle.std.specs.Prelude.{ℕ, ◌<◌, Decides, MatchOption};
ghost use Rattle.task.specs.declared.node.Numbering.TheVariants.{Choice};
ghost use Rattle.task.specs.Flaws.{graph};
ghost use Rattle.task.specs.Picks.{numbers};
ghost use Rattle.window.specs.Path.{FirstPossible, Possible};

use crate::layout::Lengths;
use task::job::Job;

/// Whether no path of the choice's concrete graph takes longer than the deadline.
pub fn is_possible(job: &Job, choice: u32) -> bool
    ensures { Decides result (Possible (graph job.now) choice job.now.deadline) }
{
    Lengths::of(job, choice).span <= job.deadline
}

/// The first possible choice.
pub fn first_possible(job: &Job) -> Option<u32>
    ensures { MatchOption result ((c : ℕ) → c < numbers Choice (graph job.now) → Possible (graph job.now) c job.now.deadline → ⊥) (FirstPossible (graph job.now) job.now.deadline) }
{
    (0..job.choices()).find(
        |choice| -> bool
            ensures { Decides result (Possible (graph job.entry.now) choice.now job.entry.now.deadline) }
        { is_possible(job, *choice) },
    )
}
