//! The marks of an engine: which ticks it serves.
ghost use Rattle.std.specs.Prelude.{◌≡◌, ◌%◌, ◌≤◌, ◌↔◌, length, IsTrue, MatchOption};
ghost use Rattle.few.specs.Few.{items};

use few::few::Few;

/// The most marks that an engine has.
pub const MARKS: usize = 240;

/// A belt cycle in ticks. It stands here too, since this crate does not know `task`.
const BELT_CYCLE: usize = 14_400;

/// The places for marks: one more than an engine has, so that too many can be handed over and be found unfit.
pub const PLACES: usize = MARKS + 1;

/// Marks: true for a served tick. After the last comes the first again.
#[derive(Debug, Clone, Copy, PartialEq, Eq)]
pub struct Marks {
    pub served: Few<bool, PLACES>,
}

impl Marks {
    ghost use Rattle.engine.specs.Marks.{Fit};

    /// Whether there are 1 to 240 marks, a divisor of a belt cycle, and one of them is true.
    pub fn is_fit(&self) -> bool
        ensures { IsTrue result ↔ Fit self.now }
    {
        let marks = self.served.as_slice();
        (1..=MARKS).contains(&marks.len()) && BELT_CYCLE % marks.len() == 0 && marks.contains(&true)
    }
}
