//! Taking a job off a board.
ghost use Rattle.std.specs.Prelude.{◌≡◌, IfErr, IfOk, IsSome};
ghost use Rattle.board.specs.Residents.{jobs, others, resident_of};
ghost use Rattle.board.specs.Unloading.{UnloadRefused};

use crate::board::Board;
use crate::refusal::Refusal;
use crate::residents::Residents;

impl Residents {
    /// The jobs whose number is another, in their order.
    fn without(&self, number: u32) -> Residents
        ensures { jobs result ≡ others (jobs self.now) number }
    {
        let mut left = Residents::new();
        for resident in self.as_slice() {
            if resident.number() != number {
                left.add(resident).unwrap();
            }
        }
        left
    }
}

impl<P, R, O> Board<P, R, O> {
    /// Takes the job with the number off the board; the others stay where they are.
    pub fn unload(&mut self, number: u32) -> Result<(), Refusal>
        ensures found { IfOk result (λ _. IsSome (resident_of (jobs self.old.residents) number)) }
        ensures left { IfOk result (λ _. jobs self.new.residents ≡ others (jobs self.old.residents) number) }
        ensures refused { IfErr result (λ f. UnloadRefused (jobs self.old.residents) number f × (self.new ≡ self.old)) }
        ensures kept { (self.new.platform ≡ self.old.platform) × (self.new.rule ≡ self.old.rule) × (self.new.order ≡ self.old.order) }
    {
        if self.resident(number).is_none() {
            return Err(Refusal::NotResident);
        }
        self.residents = self.residents.without(number);
        Ok(())
    }
}
