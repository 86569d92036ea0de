//! Placing a job on the engines of a board.
ghost use Rattle.std.specs.Prelude.{◌≡◌, ℕ, ◌<◌, ◌≤◌, ◌↔◌, [], ◌∷◌, IfOk, IfSome, IsNone, IsOk, IsTrue, MatchOption, Some, length, min, slice_index};
ghost use Rattle.board.specs.Asked.{claims_on};
ghost use Rattle.board.specs.Placing.{CannotBePlaced, FitsOn, KnownStuck, Places, RoomsOn, ShortOn};
ghost use Rattle.board.specs.Residents.{jobs};
ghost use Rattle.engine.specs.Roster.{tag_of};
ghost use Rattle.fit.specs.Room.{Leaves};
ghost use Rattle.fit.specs.Stated.{States};
ghost use Rattle.task.specs.declared.node.Numbering.TheVariants.{Choice};
ghost use Rattle.task.specs.Flaws.{graph};
ghost use Rattle.task.specs.Picks.{numbers};
ghost use Rattle.theory.specs.Pattern.{Pattern};

use crate::asked::{claims_on, loads};
use crate::board::Board;
use claim::claim::{Claim, Cut};
use engine::roster::ENGINES;
use engine::supply::Supply;
use few::few::Few;
use fit::demands::Demands;
use fit::fits::{Unsettled, is_short, shortage};
use fit::room::Room;
use order::order::EngineOrder;
use order::rota::TAGS;
use plan::plan::Plan;
use resident::resident::{PARTS, Resident, Seat};
use slack::rule::SlackRule;
use task::job::Job;
use task::node::NODES;

/// What fills the places of a list of seats.
fn no_seat() -> Seat {
    let cut = Cut {
        from: 0,
        most: [0; NODES],
    };
    let claim = Claim {
        period: 1,
        deadline: 1,
        whole: 0,
        ends: Few::new(0),
        arrival: cut,
        cuts: Few::new(cut),
    };
    Seat {
        tag: 0,
        engine: 0,
        claim,
    }
}

impl<P: Supply, R: SlackRule, O: EngineOrder> Board<P, R, O> {
    /// A number of ticks in which the engine serves too little for what the claim states beside the residents; nothing where it fits. `near` is tried first.
    fn shortage(&self, engine: usize, claim: &Claim, near: u32) -> Result<Option<u32>, Unsettled>
        ensures { IfOk result (λ known. (p : Pattern) → States p claim.now → IsNone known ↔ FitsOn (P.Supply.supply self.now.platform) (jobs self.now.residents) engine p) }
    {
        let claims = claims_on(claim, self.residents.as_slice(), engine);
        shortage(&self.platform, engine, claims.as_slice(), near)
    }

    /// What the residents leave on the engine; the claim is another.
    fn room(&self, engine: usize, claim: &Claim) -> Room
        ensures { Leaves (P.Supply.supply self.now.platform engine) (claims_on (jobs self.now.residents) engine) result }
    {
        let claims = claims_on(claim, self.residents.as_slice(), engine);
        Room::beside(&self.platform, engine, &claims.as_slice()[1..])
    }

    /// The same by what the residents leave on the engine, which is found out where it is not known.
    // Not inlined, since its table would lie in the frame of every load.
    #[inline(never)]
    fn shortage_by_room(
        &self,
        engine: usize,
        claim: &Claim,
        known: &mut Option<Room>,
    ) -> Option<u32>
        requires { IfSome known.old (Leaves (P.Supply.supply self.now.platform engine) (claims_on (jobs self.now.residents) engine)) }
        ensures fits { (p : Pattern) → States p claim.now → IsNone result ↔ FitsOn (P.Supply.supply self.now.platform) (jobs self.now.residents) engine p }
        ensures known { IfSome known.new (Leaves (P.Supply.supply self.now.platform engine) (claims_on (jobs self.now.residents) engine)) }
    {
        let room = known.get_or_insert_with(|| self.room(engine, claim));
        room.shortage(&Demands::of(claim))
    }

    /// The same by a walk, and by what the residents leave where the walk is too long and there is a place for that.
    fn shortage_on(
        &self,
        engine: usize,
        claim: &Claim,
        near: u32,
        rooms: &mut [Option<Room>],
    ) -> Result<Option<u32>, Unsettled>
        requires { RoomsOn (P.Supply.supply self.now.platform) (jobs self.now.residents) rooms.old }
        ensures fits { IfOk result (λ known. (p : Pattern) → States p claim.now → IsNone known ↔ FitsOn (P.Supply.supply self.now.platform) (jobs self.now.residents) engine p) }
        ensures rooms { RoomsOn (P.Supply.supply self.now.platform) (jobs self.now.residents) rooms.new }
        ensures settled { engine < length rooms.old → IsOk result }
        ensures long { length rooms.new ≡ length rooms.old }
    {
        match self.shortage(engine, claim, near) {
            Err(Unsettled) if engine < rooms.len() => {
                Ok(self.shortage_by_room(engine, claim, &mut rooms[engine]))
            }
            answer => answer,
        }
    }

    /// Whether in so many ticks, or in twice a belt cycle if that is less, the engine serves too little for what the claim states beside the residents.
    fn is_short(&self, engine: usize, claim: &Claim, ticks: u32) -> bool
        ensures { (p : Pattern) → States p claim.now → IsTrue result ↔ ShortOn (P.Supply.supply self.now.platform) (jobs self.now.residents) engine p (min ticks 28800) }
    {
        let claims = claims_on(claim, self.residents.as_slice(), engine);
        is_short(&self.platform, engine, claims.as_slice(), ticks)
    }

    /// Whether each engine of the tag serves too little for the claim in the ticks that are known of it.
    fn is_nowhere(&self, tag: u32, claim: &Claim, known: &[u32; ENGINES]) -> bool
        ensures { (p : Pattern) → States p claim.now → IsTrue result ↔ ((e : ℕ) → tag_of (P.Roster.tags self.now.platform) e ≡ Some tag → ShortOn (P.Supply.supply self.now.platform) (jobs self.now.residents) e p (min (slice_index known.now e) 28800)) }
    {
        for engine in 0..ENGINES {
            if self.platform.tag(engine) != Some(tag) {
                continue;
            }
            if !self.is_short(engine, claim, known[engine]) {
                return false;
            }
        }
        true
    }

    /// Whether some part of the plan asks too much of each engine of its tag, in the ticks that are known of the engine.
    fn is_stuck(&self, plan: &Plan, known: &[u32; ENGINES]) -> bool
        ensures { IsTrue result ↔ KnownStuck (record { tags = P.Roster.tags self.now.platform; supply = P.Supply.supply self.now.platform; local = R.SlackRule.local self.now.rule; listing = O.EngineOrder.listing self.now.order }) (jobs self.now.residents) plan.now (λ e. min (slice_index known.now e) 28800) }
    {
        for tag in 0..PARTS as u32 {
            let Some(claim) = Claim::of(plan, tag) else {
                continue;
            };
            if self.is_nowhere(tag, &claim, known) {
                return true;
            }
        }
        false
    }

    /// The job under its first possible choice that can be placed, where no walk is too long or there are places for what the residents leave.
    fn place_beside(
        &self,
        job: &Job,
        rooms: &mut [Option<Room>],
    ) -> Result<Option<Resident>, Unsettled>
        requires { RoomsOn (P.Supply.supply self.now.platform) (jobs self.now.residents) rooms.old }
        ensures placed { IfOk result (λ placed. MatchOption placed ((c : ℕ) → c < numbers Choice (graph job.now) → CannotBePlaced (record { tags = P.Roster.tags self.now.platform; supply = P.Supply.supply self.now.platform; local = R.SlackRule.local self.now.rule; listing = O.EngineOrder.listing self.now.order }) (jobs self.now.residents) job.now c) (Places (record { tags = P.Roster.tags self.now.platform; supply = P.Supply.supply self.now.platform; local = R.SlackRule.local self.now.rule; listing = O.EngineOrder.listing self.now.order }) (jobs self.now.residents) job.now)) }
        ensures settled { 16 ≤ length rooms.old → IsOk result }
    {
        let loads = loads(&self.residents);
        // The parts of a job's choices are much alike, so the ticks in which an engine was short for one are tried first with the next.
        let mut short = [0; ENGINES];
        'choices: for choice in 0..job.choices() {
            let Some(plan) = Plan::of(job, choice, &self.rule) else {
                continue;
            };
            if self.is_stuck(&plan, &short) {
                continue;
            }
            let mut seats = Few::new(no_seat());
            'tags: for tag in 0..PARTS as u32 {
                let Some(claim) = Claim::of(&plan, tag) else {
                    continue;
                };
                for place in 0..ENGINES {
                    let Some(engine) = self.order.place(&self.platform, tag, &loads, place) else {
                        continue 'choices;
                    };
                    let Some(ticks) = self.shortage_on(engine, &claim, short[engine], rooms)? else {
                        seats.push(Seat { tag, engine, claim }).unwrap();
                        continue 'tags;
                    };
                    short[engine] = ticks;
                }
                continue 'choices;
            }
            return Ok(Some(Resident { plan, seats }));
        }
        Ok(None)
    }

    /// The same, with places for what the residents leave.
    // Not inlined, since its tables would lie in the frame of every load.
    #[inline(never)]
    fn place_by_rooms(&self, job: &Job) -> Option<Resident>
        ensures { MatchOption result ((c : ℕ) → c < numbers Choice (graph job.now) → CannotBePlaced (record { tags = P.Roster.tags self.now.platform; supply = P.Supply.supply self.now.platform; local = R.SlackRule.local self.now.rule; listing = O.EngineOrder.listing self.now.order }) (jobs self.now.residents) job.now c) (Places (record { tags = P.Roster.tags self.now.platform; supply = P.Supply.supply self.now.platform; local = R.SlackRule.local self.now.rule; listing = O.EngineOrder.listing self.now.order }) (jobs self.now.residents) job.now) }
    {
        let mut rooms = [None; ENGINES];
        self.place_beside(job, &mut rooms).unwrap_or(None)
    }

    /// The job under its first possible choice that can be placed.
    pub(crate) fn place(&self, job: &Job) -> Option<Resident>
        ensures { MatchOption result ((c : ℕ) → c < numbers Choice (graph job.now) → CannotBePlaced (record { tags = P.Roster.tags self.now.platform; supply = P.Supply.supply self.now.platform; local = R.SlackRule.local self.now.rule; listing = O.EngineOrder.listing self.now.order }) (jobs self.now.residents) job.now c) (Places (record { tags = P.Roster.tags self.now.platform; supply = P.Supply.supply self.now.platform; local = R.SlackRule.local self.now.rule; listing = O.EngineOrder.listing self.now.order }) (jobs self.now.residents) job.now) }
    {
        // What the residents leave takes much memory, which is not touched where no walk is too long.
        match self.place_beside(job, &mut []) {
            Ok(placed) => placed,
            Err(Unsettled) => self.place_by_rooms(job),
        }
    }
}
