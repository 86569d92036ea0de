//! What an arrival opens.
ghost use Rattle.std.specs.Prelude.{◌≡◌, ◌<◌, ◌≤◌, Some, length, map, slice_index_or};
ghost use Rattle.dispatch.specs.declared.sub_task.SubTask.{SubTask};
ghost use Rattle.dispatch.specs.Table.{numbered, state_of};
ghost use Rattle.dispatch.specs.Opening.{opened_at, opened_in, replaced};
ghost use Rattle.dispatch.specs.Slot.{tasks_in};
ghost use Rattle.few.specs.Few.{items};
ghost use Rattle.runs.specs.Events.{start};

use crate::phase::Phase;
use crate::slot::{BLANK, Open, Slot};
use crate::sub_task::SubTask;
use crate::table::{SLOTS, Table};
use few::few::Few;
use std::array;
use task::node::{NODES, Ticks};

/// One sub-task of an arrival at this clock.
fn opened(task: &SubTask, clock: Ticks) -> Open
    requires { clock ≤ 2000000000 }
    ensures { result ≡ opened_at clock task.now }
{
    let left = task.ticks;
    let phase = if task.offset == 0 {
        Phase::Ready { left }
    } else {
        Phase::Waiting { left }
    };
    Open {
        node: task.node,
        engine: task.engine,
        release: clock + task.offset,
        due: clock + task.deadline,
        phase,
    }
}

/// The sub-task at a place of an arrival at this clock; a blank from their number on.
fn opened_or_blank(tasks: &[SubTask], place: usize, clock: Ticks) -> Open
    requires { clock ≤ 2000000000 }
    ensures { (d : SubTask) → place < length tasks.now → result ≡ opened_at clock (slice_index_or tasks.now place d) }
{
    match tasks.get(place) {
        Some(task) => opened(task, clock),
        None => BLANK,
    }
}

impl Slot {
    /// The slot of a job after an arrival at this clock that opens these.
    fn opened(job: u32, tasks: &Few<SubTask, NODES>, clock: Ticks) -> Slot
        requires { clock ≤ 2000000000 }
        ensures job { result.job ≡ job }
        ensures last { result.last ≡ Some clock }
        ensures tasks { tasks_in result ≡ map (opened_at clock) (items tasks.now) }
    {
        let opened = tasks.as_slice();
        Slot {
            job,
            last: Some(clock),
            tasks: array::from_fn(|place| opened_or_blank(opened, place, clock)),
            len: tasks.len(),
        }
    }
}

/// Puts the slot in the place of those of its job.
fn replace(slots: &mut [Slot], fresh: &Slot)
    ensures { slots.new ≡ map (replaced fresh.now) slots.old }
{
    for slot in slots.iter_mut() {
        if slot.job == fresh.job {
            *slot = *fresh;
        }
    }
}

impl Table {
    /// The table of a board that begins to run, before any arrival, for the jobs with these numbers.
    pub fn start(jobs: &Few<u32, SLOTS>) -> Table
        ensures { state_of result ≡ start (map numbered (items jobs.now)) }
    {
        let numbers = jobs.as_slice();
        Table {
            clock: 0,
            late_total: 0,
            slots: array::from_fn(|place| Slot {
                job: numbers.get(place).copied().unwrap_or(0),
                last: None,
                tasks: [BLANK; NODES],
                len: 0,
            }),
            len: jobs.len(),
        }
    }

    /// Notes an arrival of the job and opens its sub-tasks; they take the place of those that its last arrival opened.
    pub fn open(&mut self, job: u32, tasks: &Few<SubTask, NODES>)
        ensures { state_of self.new ≡ record (state_of self.old) { slots = map (opened_in job self.old.clock (items tasks.now)) (state_of self.old).slots } }
    {
        let fresh = Slot::opened(job, tasks, self.clock);
        replace(&mut self.slots, &fresh);
    }
}
