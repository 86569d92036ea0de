//! One tick.
ghost use Rattle.std.specs.Prelude.{◌≡◌, ◌↔◌, ℕ, ◌+◌, ◌*◌, ◌<◌, ◌≤◌, ◌++◌, true, None, drop, map, slice_index_or, take, sum_by, count_by, if◌then◌else◌, ◌&&◌, nat_le, IfSome, OnSome, IsNone, IfNone};
ghost use Rattle.std.specs.List.{list_all};
ghost use Rattle.std.specs.Option.{option_map};
ghost use Rattle.dispatch.specs.Candidate.{key, named};
ghost use Rattle.dispatch.specs.Phase.{is_waiting, meaning};
ghost use Rattle.dispatch.specs.Slot.{in_time, slot_in_time};
ghost use Rattle.dispatch.specs.Table.{shown, state_of};
ghost use Rattle.dispatch.specs.Ticking.{is_named, late_by, masked, ran_on, slot_late, slot_turned, turned, worked_by};
ghost use Rattle.runs.specs.Events.{step, tick};
ghost use Rattle.runs.specs.State.{is_pending};

use crate::candidate::{Candidate, Next};
use crate::mask::is_set;
use crate::phase::Event;
use crate::slot::{Open, Slot};
use crate::table::{LAST, SLOTS, Table};
use crate::tick::Tick;
use engine::roster::ENGINES;
use std::array;
use task::node::{NODES, Ticks};

/// What runs on the engine, of which this sub-task is next.
fn ran_by(served: u16, engine: usize, next: Option<Candidate>) -> Option<Next>
    requires { engine < 16 }
    ensures { result ≡ (if masked served engine then option_map named (option_map key next) else None) }
{
    if is_set(served, engine) {
        next.map(|next| next.named())
    } else {
        None
    }
}

impl Open {
    /// Whether its end comes with this clock while work is left.
    fn is_overdue(&self, clock: Ticks) -> bool
        ensures { result ≡ (is_pending (meaning self.now.phase) && nat_le self.now.due clock) }
    {
        self.phase.is_pending() && self.due <= clock
    }

    /// Whether it waits and its release comes with this clock.
    fn is_released(&self, clock: Ticks) -> bool
        ensures { result ≡ (is_waiting self.now.phase && nat_le self.now.release clock) }
    {
        self.phase.is_waiting() && self.release <= clock
    }

    /// Whether it is what ran on its engine.
    fn has_run(&self, job: u32, tick: &Tick) -> bool
        ensures { result ≡ is_named (slice_index_or tick.now.ran self.now.engine None) (shown job self.now).task }
    {
        let node = self.node;
        tick.ran[self.engine] == Some(Next { job, node })
    }

    /// Takes the work of the tick: a tick of it where it ran, and the report that it is done.
    fn work(&mut self, job: u32, tick: &Tick)
        requires { in_time tick.now.clock self.old ≡ true }
        ensures phase { meaning self.new.phase ≡ (worked_by tick.now job self.old).phase }
        ensures rest { self.new ≡ record self.old { phase = self.new.phase } }
        ensures in_time { in_time tick.now.clock self.new ≡ true }
    {
        if self.has_run(job, tick) {
            self.phase.step(Event::Served);
            if is_set(tick.done, self.engine) {
                self.phase.step(Event::Done);
            }
        }
    }

    /// Takes the tick, and says whether it became late.
    fn turn(&mut self, job: u32, tick: &Tick) -> bool
        requires { in_time tick.now.clock self.old ≡ true }
        ensures after { self.new ≡ turned tick.now job self.old }
        ensures late { result ≡ late_by tick.now job self.old }
    {
        self.work(job, tick);
        let clock = tick.clock + 1;
        let is_late = self.is_overdue(clock);
        if is_late {
            self.phase.step(Event::EndPassed);
        } else if self.is_released(clock) {
            self.phase.step(Event::OffsetReached);
        }
        is_late
    }
}

// A function of the array: a part of a field cannot be lent.
/// The first open sub-tasks of a job take the tick: how many became late.
fn turn_tasks(tasks: &mut [Open; NODES], len: usize, job: u32, tick: &Tick) -> u32
    requires few { len ≤ 24 }
    requires in_time { list_all (in_time tick.now.clock) (take len tasks.old) ≡ true }
    ensures after { tasks.new ≡ map (turned tick.now job) (take len tasks.old) ++ drop len tasks.old }
    ensures late { result ≡ count_by (late_by tick.now job) (take len tasks.old) }
{
    let mut late = 0;
    for task in tasks[..len].iter_mut() {
        if task.turn(job, tick) {
            late += 1;
        }
    }
    late
}

impl Slot {
    /// Its open sub-tasks take the tick: how many became late.
    fn turn(&mut self, tick: &Tick) -> u32
        requires { slot_in_time tick.now.clock self.old ≡ true }
        ensures after { self.new ≡ slot_turned tick.now self.old }
        ensures late { result ≡ slot_late tick.now self.old }
    {
        turn_tasks(&mut self.tasks, self.len, self.job, tick)
    }
}

/// The first slots take the tick: how many sub-tasks became late.
fn turn_slots(slots: &mut [Slot; SLOTS], len: usize, tick: &Tick) -> u32
    requires few { len ≤ 16 }
    requires in_time { list_all (slot_in_time tick.now.clock) (take len slots.old) ≡ true }
    ensures after { slots.new ≡ map (slot_turned tick.now) (take len slots.old) ++ drop len slots.old }
    ensures late { result ≡ sum_by (slot_late tick.now) (take len slots.old) }
    ensures few { result ≤ 384 }
{
    let mut late = 0;
    for slot in slots[..len].iter_mut() {
        late += slot.turn(tick);
    }
    late
}

impl Table {
    /// What runs on each engine in a tick with the served mask.
    fn ran(&self, served: u16) -> [Option<Next>; ENGINES]
        ensures { (e : ℕ) → e < 16 → slice_index_or result e None ≡ ran_on e self.now served }
    {
        let firsts = self.firsts();
        array::from_fn(|engine| ran_by(served, engine, firsts[engine]))
    }

    /// Takes a tick: each served engine runs its next sub-task, which has then a tick less, and is finished where none is left or its engine reports that it is done; then the clock rises, and what is open when its end has come is late, and is counted. It writes what ran on each engine, and answers how many sub-tasks became late; nothing, and nothing changes, where the clock has no tick left.
    pub fn tick(&mut self, served: u16, done: u16, ran: &mut [Option<Next>; ENGINES]) -> Option<u32>
        ensures steps { OnSome result (state_of self.new ≡ step (state_of self.old) (tick (masked served) (masked done))) }
        ensures late { IfSome result (λ late. self.new.late_total ≡ self.old.late_total + late) }
        ensures ran { OnSome result ((e : ℕ) → e < 16 → slice_index_or ran.new e None ≡ ran_on e self.old served) }
        ensures at_end { IsNone result ↔ (self.old.clock ≡ 2000000000) }
        ensures refused { IfNone result (self.new ≡ self.old) }
        ensures unwritten { IfNone result (ran.new ≡ ran.old) }
    {
        if self.clock == LAST {
            return None;
        }
        let tick = Tick {
            clock: self.clock,
            ran: self.ran(served),
            done,
        };
        *ran = tick.ran;
        let late = turn_slots(&mut self.slots, self.len, &tick);
        self.clock += 1;
        self.late_total += u64::from(late);
        Some(late)
    }
}
