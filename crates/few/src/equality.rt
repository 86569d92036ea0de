//! Lists are equal, and are printed, by their items alone.
ghost use Rattle.few.specs.Few.{items};
ghost use Rattle.std.specs.Cmp.{on_equiv, on_per};
ghost use Rattle.std.specs.Cmp.Lexicographic.{lists_equiv, lists_per, pointwise};

use crate::few::Few;
use std::fmt;

impl<T: Copy + PartialEq, const N: usize> PartialEq for Few<T, N> {
    ghost eq = { λ f g. pointwise T.eq (items f) (items g) };

    ghost laws = { on_per (λ f. items f) (lists_per T.PartialEq.laws) };

    fn eq(&self, other: &Few<T, N>) -> bool {
        self.as_slice() == other.as_slice()
    }
}

impl<T: Copy + Eq, const N: usize> Eq for Few<T, N> {
    ghost laws = { on_equiv (λ f. items f) (lists_equiv T.Eq.laws) };
}

impl<T: Copy + fmt::Debug, const N: usize> fmt::Debug for Few<T, N> {
    fn fmt<W: fmt::Write>(&self, f: &mut fmt::Formatter<W>) -> fmt::Result {
        f.debug_list().entries(self.as_slice()).finish()
    }
}
