//! Which sub-task an engine runs next.
ghost use Rattle.std.specs.Prelude.{◌≡◌, ℕ, ◌+◌, ◌<◌, ◌≤◌, ◌++◌, length, None, slice_index_or};
ghost use Rattle.dispatch.specs.Candidate.{key, named};
ghost use Rattle.dispatch.specs.Choosing.{all_candidates, candidate, candidates, ready_on, soonest};
ghost use Rattle.dispatch.specs.Table.{slots_in, tasks_open};
ghost use Rattle.few.specs.Few.{items};
ghost use Rattle.runs.specs.Next.{next, sooner};
ghost use Rattle.std.specs.Option.{option_map};

use crate::candidate::{Candidate, Next};
use crate::slot::{Open, Slot};
use crate::table::{SLOTS, Table};
use engine::roster::ENGINES;
use few::few::Few;
use order::least::least;
use task::node::NODES;

/// The most open sub-tasks of a board.
const TASKS: usize = SLOTS * NODES;

/// A candidate that fills the places of a list after the last one.
const BLANK: Candidate = Candidate {
    due: 0,
    job: 0,
    node: 0,
};

impl Open {
    /// Whether it is ready on the engine.
    fn is_ready_on(&self, engine: usize) -> bool
        ensures { result ≡ ready_on engine self.now }
    {
        self.phase.is_ready() && self.engine == engine
    }

    /// It, of the job, as a candidate.
    fn candidate(&self, job: u32) -> Candidate
        ensures { result ≡ candidate job self.now }
    {
        Candidate {
            due: self.due,
            job,
            node: self.node,
        }
    }
}

impl Slot {
    /// Puts its sub-tasks that are ready on the engine behind the others.
    fn gather(&self, engine: usize, found: &mut Few<Candidate, TASKS>)
        requires { length (items found.old) + 24 ≤ 384 }
        ensures { items found.new ≡ items found.old ++ candidates engine self.now }
    {
        for task in self.tasks[..self.len].iter() {
            if task.is_ready_on(engine) {
                found.push(task.candidate(self.job)).unwrap();
            }
        }
    }

    /// Looks at its sub-tasks for the first on each engine.
    fn note(&self, firsts: &mut [Option<Candidate>; ENGINES])
        ensures { (e : ℕ) → e < 16 → option_map key (slice_index_or firsts.new e None) ≡ soonest (option_map key (slice_index_or firsts.old e None)) (candidates e self.now) }
    {
        for task in self.tasks[..self.len].iter() {
            if task.phase.is_ready() {
                let candidate = task.candidate(self.job);
                if candidate.leads(firsts[task.engine]) {
                    firsts[task.engine] = Some(candidate);
                }
            }
        }
    }
}

impl Table {
    /// The sub-tasks that are ready on the engine.
    fn candidates(&self, engine: usize) -> Few<Candidate, TASKS>
        ensures { items result ≡ all_candidates engine (slots_in self.now) }
    {
        let mut found = Few::new(BLANK);
        for slot in self.slots[..self.len].iter() {
            slot.gather(engine, &mut found);
        }
        found
    }

    /// What the engine runs next: of its ready sub-tasks the one with the earliest end, then the lowest job, then the lowest node; nothing where none is ready.
    pub fn next(&self, engine: usize) -> Option<Next>
        ensures { result ≡ option_map named (next engine self.now.clock (tasks_open self.now)) }
    {
        let found = self.candidates(engine);
        let first = least(found.as_slice())?;
        Some(found.as_slice()[first].named())
    }

    /// The sub-task that each engine would run next, in one pass over all.
    pub(crate) fn firsts(&self) -> [Option<Candidate>; ENGINES]
        ensures { (e : ℕ) → e < 16 → option_map key (slice_index_or result e None) ≡ next e self.now.clock (tasks_open self.now) }
    {
        let mut firsts = [None; ENGINES];
        for slot in self.slots[..self.len].iter() {
            slot.note(&mut firsts);
        }
        firsts
    }
}
