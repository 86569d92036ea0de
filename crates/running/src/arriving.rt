//! Arrivals on a board that runs.
ghost use Rattle.std.specs.Prelude.{◌≡◌, true, nat_le, IfErr, MatchResult, OnOk};
ghost use Rattle.board.specs.Residents.{jobs};
ghost use Rattle.dispatch.specs.Kept.{kept};
ghost use Rattle.dispatch.specs.Table.{state_of};
ghost use Rattle.few.specs.Few.{items};
ghost use Rattle.running.specs.Arriving.{ArriveRefused, Opens, free_from};
ghost use Rattle.running.specs.View.{view};
ghost use Rattle.runs.specs.Events.{arrive, granted, step};
ghost use Rattle.std.specs.List.{list_any};

use crate::reached::reached;
use crate::running::Running;
use board::refusal::Refusal;
use dispatch::sub_task::SubTask;
use few::few::Few;
use task::node::{NODES, Ticks};

/// Whether a job may arrive at the clock, by its last arrival and its period.
fn may_arrive(last: Option<Ticks>, period: Ticks, clock: Ticks) -> bool
    ensures { result ≡ nat_le (free_from period last) clock }
{
    match last {
        Some(last) => u64::from(last) + u64::from(period) <= u64::from(clock),
        None => true,
    }
}

impl<P, R, O> Running<P, R, O> {
    /// The sub-tasks that an arrival opens, if it is granted.
    fn opens(&self, number: u32, branch: u32) -> Result<Few<SubTask, NODES>, Refusal>
        ensures { MatchResult result (λ ws. Opens (jobs self.now.board.residents) (state_of self.now.table) number branch (items ws)) (ArriveRefused (view self.now) number branch) }
    {
        let Some(resident) = self.board.resident(number) else {
            return Err(Refusal::NotResident);
        };
        let plan = &resident.plan;
        let Some(row) = plan.reached.get(branch as usize) else {
            return Err(Refusal::NoBranch);
        };
        let last = self.table.last_arrival(number);
        if !may_arrive(last, plan.job.period, self.table.clock()) {
            return Err(Refusal::TooSoon);
        }
        Ok(reached(resident, row))
    }

    /// Takes an arrival of a job: it opens the sub-tasks that the branch reaches, which take the place of those that its last arrival opened.
    pub fn arrive(&mut self, number: u32, branch: u32) -> Result<(), Refusal>
        ensures granted { OnOk result (list_any (granted (view self.old).clock number branch) (view self.old).slots ≡ true) }
        ensures arrives { OnOk result (view self.new ≡ kept (step (view self.old) (arrive number branch))) }
        ensures board { self.new.board ≡ self.old.board }
        ensures refused { IfErr result (λ f. ArriveRefused (view self.old) number branch f × (self.new ≡ self.old)) }
    {
        let tasks = self.opens(number, branch)?;
        self.table.open(number, &tasks);
        Ok(())
    }
}
