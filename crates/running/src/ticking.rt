//! Ticks of a board that runs.
ghost use Rattle.std.specs.Prelude.{◌≡◌, ◌+◌, ◌<◌, length, if◌then◌else◌, nat_lt, None, IfErr, IfOk, OnOk};
ghost use Rattle.dispatch.specs.Ticking.{masked};
ghost use Rattle.running.specs.Ticking.{NoOther, Ran, TickRefused, next_in};
ghost use Rattle.running.specs.View.{view};
ghost use Rattle.runs.specs.Events.{step, tick};
ghost use Rattle.runs.specs.Theorems.{NextIsFirst};

use crate::known::names_another;
use crate::running::Running;
use board::refusal::Refusal;
use dispatch::candidate::Next;
use engine::roster::{ENGINES, Roster};

impl<P: Roster, R, O> Running<P, R, O> {
    /// What the engine runs next: of its ready sub-tasks the one with the earliest end, then the lowest job, then the lowest node; nothing where none is ready, or there is no such engine.
    #[tactic(auto, using(runs::proofs::Choice::next_is_first))]
    pub fn next(&self, engine: usize) -> Option<Next>
        ensures next { result ≡ (if nat_lt engine (length (P.Roster.tags self.now.board.platform)) then next_in (view self.now) engine else None) }
        ensures first { NextIsFirst }
    {
        if engine < self.board.platform().engines() {
            self.table.next(engine)
        } else {
            None
        }
    }

    /// Takes a tick: each served engine runs its next sub-task, which has then a tick less, and is finished where none is left or its engine reports that it is done; then the clock rises, and what is open when its end has come is late. It writes what ran on each engine, and answers how many sub-tasks became late.
    pub fn tick(
        &mut self,
        served: u16,
        done: u16,
        ran: &mut [Option<Next>; ENGINES],
    ) -> Result<u32, Refusal>
        ensures exist { OnOk result (NoOther (length (P.Roster.tags self.old.board.platform)) served done) }
        ensures in_time { OnOk result ((view self.old).clock < 2000000000) }
        ensures steps { OnOk result (view self.new ≡ step (view self.old) (tick (masked served) (masked done))) }
        ensures ran { OnOk result (Ran (view self.old) served ran.new) }
        ensures late { IfOk result (λ late. (view self.new).lates ≡ (view self.old).lates + late) }
        ensures board { self.new.board ≡ self.old.board }
        ensures refused { IfErr result (λ f. TickRefused (length (P.Roster.tags self.old.board.platform)) (view self.old) served done f × (self.new ≡ self.old) × (ran.new ≡ ran.old)) }
    {
        let engines = self.board.platform().engines();
        if names_another(engines, served, done) {
            return Err(Refusal::NoEngine);
        }
        self.table.tick(served, done, ran).ok_or(Refusal::LastClock)
    }
}
