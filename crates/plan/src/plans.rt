//! Making the plan of a choice.
ghost use Rattle.std.specs.Prelude.{◌≡◌, ℕ, ◌<◌, [], length, MatchOption, slice_index_or};
ghost use Rattle.few.specs.Few.{items};
ghost use Rattle.plan.specs.Plan.{IsPlan};
ghost use Rattle.task.specs.declared.node.Numbering.TheVariants.{Branch};
ghost use Rattle.task.specs.Concrete.{Reached};
ghost use Rattle.task.specs.Flaws.{graph};
ghost use Rattle.task.specs.Picks.{numbers};
ghost use Rattle.task.specs.Tables.{Tells};
ghost use Rattle.window.specs.Path.{Possible};

use crate::plan::{BRANCHES, Plan};
use few::few::Few;
use slack::rule::SlackRule;
use task::job::Job;
use task::node::NODES;
use window::layout::Layout;
use window::possible::is_possible;

/// What an arrival reaches, for each branch number.
fn reached_by_branch(job: &Job, choice: u32) -> Few<[bool; NODES], BRANCHES>
    ensures many { length (items result) ≡ numbers Branch (graph job.now) }
    ensures tells { (b : ℕ) → b < numbers Branch (graph job.now) → Tells (Reached (graph job.now) choice b) (slice_index_or (items result) b []) }
{
    let mut rows = Few::new([false; NODES]);
    for branch in 0..job.branches() {
        rows.push(job.reached(choice, branch)).unwrap();
    }
    rows
}

impl Plan {
    /// The plan of a job under a choice; nothing where the choice is not possible.
    pub fn of<R: SlackRule>(job: &Job, choice: u32, rule: &R) -> Option<Plan>
        ensures { MatchOption result (Possible (graph job.now) choice job.now.deadline → ⊥) (λ p. Possible (graph job.now) choice job.now.deadline × IsPlan (R.SlackRule.local rule.now) job.now choice p) }
    {
        let possible = is_possible(job, choice);
        if !possible {
            return None;
        }
        let members = job.concrete(choice).members;
        let windows = Layout::of(job, choice, rule).windows;
        let reached = reached_by_branch(job, choice);
        Some(Plan {
            job: *job,
            choice,
            members,
            windows,
            reached,
        })
    }
}
