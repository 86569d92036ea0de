//! Loading a job.
ghost use Rattle.std.specs.Prelude.{◌≡◌, ◌++◌, ℕ, List, Decides, IfErr, IfOk, MatchResult};
ghost use Rattle.board.specs.Determined.{LoadDetermined};
ghost use Rattle.board.specs.Loading.{Comes, Free, LoadRefused, Takes};
ghost use Rattle.board.specs.Placing.{Rules, tellings};
ghost use Rattle.board.specs.Residents.{jobs};

use crate::board::Board;
use crate::refusal::Refusal;
use crate::residents::RESIDENTS;
use engine::supply::Supply;
use order::order::EngineOrder;
use resident::resident::Resident;
use slack::rule::SlackRule;
use task::job::Job;
use text::job_text::read_job;
use window::possible::first_possible;

impl<P: Supply, R: SlackRule, O: EngineOrder> Board<P, R, O> {
    /// Whether no job of the board has the number.
    fn is_free(&self, number: u32) -> bool
        ensures { Decides result (Free (jobs self.now.residents) number) }
    {
        self.residents
            .as_slice()
            .iter()
            .all(|resident| resident.number() != number)
    }

    /// The job of the text, if its number is free and there is room for it.
    fn coming(&self, text: &[u8]) -> Result<Job, Refusal>
        ensures { MatchResult result (Comes text.now (jobs self.now.residents)) (λ f. (rules : Rules) → LoadRefused rules (jobs self.now.residents) text.now f) }
    {
        let job = read_job(text)?;
        if !self.is_free(job.number) {
            return Err(Refusal::NumberTaken);
        }
        if self.residents.as_slice().len() == RESIDENTS {
            return Err(Refusal::BoardFull);
        }
        Ok(job)
    }

    /// Tells the order which engine took each part.
    fn tell(&mut self, resident: &Resident)
        ensures told { (ts : List (ℕ × ℕ)) → O.EngineOrder.listing self.new.order ts ≡ O.EngineOrder.listing self.old.order (tellings resident.now ++ ts) }
        ensures kept { (self.new.platform ≡ self.old.platform) × (self.new.rule ≡ self.old.rule) × (self.new.residents ≡ self.old.residents) }
    {
        for seat in resident.seats.iter() {
            self.order.tell(seat.tag, seat.engine);
        }
    }

    /// Loads the job of the text, and answers its number.
    #[tactic(auto, using(crate::proofs::Determining::load_determined))]
    pub fn load(&mut self, text: &[u8]) -> Result<u32, Refusal>
        ensures granted { IfOk result (λ n. Takes (record { tags = P.Roster.tags self.old.platform; supply = P.Supply.supply self.old.platform; local = R.SlackRule.local self.old.rule; listing = O.EngineOrder.listing self.old.order }) (jobs self.old.residents) text.now n (jobs self.new.residents) (O.EngineOrder.listing self.new.order)) }
        ensures kept { (self.new.platform ≡ self.old.platform) × (self.new.rule ≡ self.old.rule) }
        ensures refused { IfErr result (λ f. LoadRefused (record { tags = P.Roster.tags self.old.platform; supply = P.Supply.supply self.old.platform; local = R.SlackRule.local self.old.rule; listing = O.EngineOrder.listing self.old.order }) (jobs self.old.residents) text.now f × (self.new ≡ self.old)) }
        ensures determined { LoadDetermined }
    {
        let job = self.coming(text)?;
        let Some(_) = first_possible(&job) else {
            return Err(Refusal::NoChoice);
        };
        let Some(resident) = self.place(&job) else {
            return Err(Refusal::NoPlacement);
        };
        self.tell(&resident);
        self.residents.add(&resident).unwrap();
        Ok(job.number)
    }
}
