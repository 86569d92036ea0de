//! What is asked of a table.
ghost use Rattle.std.specs.Prelude.{◌≡◌};
ghost use Rattle.dispatch.specs.Table.{arrived_last, state_of};

use crate::table::Table;
use task::node::Ticks;

impl Table {
    /// The clock.
    pub fn clock(&self) -> Ticks
        ensures { result ≡ (state_of self.now).clock }
    {
        self.clock
    }

    /// How many sub-tasks were late so far.
    pub fn late_total(&self) -> u64
        ensures { result ≡ (state_of self.now).lates }
    {
        self.late_total
    }

    /// When the job arrived last; nothing where it has not, or there is no such job.
    pub fn last_arrival(&self, job: u32) -> Option<Ticks>
        ensures { result ≡ arrived_last job (state_of self.now).slots }
    {
        self.slots[..self.len]
            .iter()
            .find(|slot| slot.job == job)?
            .last
    }
}
