//! What is asked of a placed job.
ghost use Rattle.std.specs.Prelude.{◌≡◌};
ghost use Rattle.resident.specs.Resident.{engine_of, number_of};

use crate::resident::Resident;

impl Resident {
    /// The number of its job.
    pub fn number(&self) -> u32
        ensures { result ≡ number_of self.now }
    {
        self.plan.job.number
    }

    /// The engine that the part of a tag sits on; nothing where the job has no such part.
    pub fn engine_of(&self, tag: u32) -> Option<usize>
        ensures { result ≡ engine_of self.now tag }
    {
        self.seats
            .iter()
            .find(|seat| seat.tag == tag)
            .map(|seat| seat.engine)
    }
}
