//! Marks that are fit.
ghost use Rattle.std.specs.Prelude.{◌≡◌, ◌%◌, ◌≤◌, length, MatchOption};
ghost use Rattle.engine.specs.Marks.{Fit, marked};

use crate::marks::Marks;

/// Marks of which there are 1 to 240, a divisor of a belt cycle.
#[derive(Debug, Clone, Copy, PartialEq, Eq)]
pub(crate) struct Round {
    pub(crate) marks: Marks,
    ghost some: { 1 ≤ length (marked marks) },
    ghost short: { length (marked marks) ≤ 240 },
    ghost divides: { 14400 % length (marked marks) ≡ 0 },
}

impl Round {
    ghost use Rattle.cyclic.specs.Ones.{mark};

    /// These marks; nothing where they are not fit.
    pub(crate) fn of(marks: &Marks) -> Option<Round>
        ensures { MatchOption result (Fit marks.now → ⊥) (λ r. Fit marks.now × (r.marks ≡ marks.now)) }
    {
        if !marks.is_fit() {
            return None;
        }
        Some(Round { marks: *marks })
    }

    /// How many marks there are.
    pub(crate) fn len(&self) -> usize
        ensures { result ≡ length (marked self.now.marks) }
    {
        self.marks.served.len()
    }

    /// 1 where the mark at a place is true, else 0.
    pub(crate) fn mark(&self, place: usize) -> u32
        ensures { result ≡ mark (marked self.now.marks) place }
    {
        u32::from(self.marks.served[place % self.len()])
    }
}
