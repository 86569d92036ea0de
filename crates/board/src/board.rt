//! A board that does not run.
ghost use Rattle.std.specs.Prelude.{◌≡◌, []};
ghost use Rattle.board.specs.Residents.{jobs};

use crate::residents::Residents;

// It is not Copy: a board that is started has to be gone.
/// A board: its engines, the rules that it places by, and the jobs that it has.
#[derive(Debug, PartialEq, Eq, Drop)]
pub struct Board<P, R, O> {
    pub(crate) platform: P,
    pub(crate) rule: R,
    pub(crate) order: O,
    pub(crate) residents: Residents,
}

impl<P, R, O> Board<P, R, O> {
    /// A board without jobs.
    pub fn new(platform: P, rule: R, order: O) -> Board<P, R, O>
        ensures { (result.platform ≡ platform) × (result.rule ≡ rule) × (result.order ≡ order) × (jobs result.residents ≡ []) }
    {
        Board {
            platform,
            rule,
            order,
            residents: Residents::new(),
        }
    }

    /// Its platform.
    pub fn platform(&self) -> &P
        ensures { result.now ≡ self.now.platform }
    {
        &self.platform
    }
}
