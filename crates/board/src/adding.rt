//! Making the list of a board's jobs, reading it, and adding to it.
ghost use Rattle.std.specs.Prelude.{◌≡◌, ◌<◌, ◌≤◌, ◌↔◌, ◌++◌, [], ◌∷◌, length, IsOk, OnOk, OnErr};
ghost use Rattle.board.specs.Loading.{Free};
ghost use Rattle.board.specs.Residents.{jobs};
ghost use Rattle.resident.specs.Resident.{number_of};

use crate::residents::Residents;
use few::few::Few;
use few::items::Full;
use resident::resident::Resident;

impl Residents {
    /// No jobs.
    pub(crate) fn new() -> Residents
        ensures { jobs result ≡ [] }
    {
        Residents { kept: None }
    }

    /// The jobs.
    pub(crate) fn as_slice(&self) -> &[Resident]
        ensures jobs { result.now ≡ jobs self.now }
        ensures few { length result.now ≤ 16 }
    {
        match &self.kept {
            Some(kept) => kept.as_slice(),
            None => &[],
        }
    }

    /// Puts a job with a new number behind the others; where there is no place left, it stays out.
    pub(crate) fn add(&mut self, resident: &Resident) -> Result<(), Full>
        requires { Free (jobs self.old) (number_of resident.now) }
        ensures room { IsOk result ↔ (length (jobs self.old) < 16) }
        ensures put { OnOk result (jobs self.new ≡ jobs self.old ++ resident.now ∷ []) }
        ensures full { OnErr result (self.new ≡ self.old) }
    {
        match &mut self.kept {
            Some(kept) => kept.push(*resident),
            None => {
                let mut kept = Few::new(*resident);
                kept.push(*resident)?;
                self.kept = Some(kept);
                Ok(())
            }
        }
    }
}
