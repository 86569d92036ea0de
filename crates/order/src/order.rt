//! The order in which the engines of a tag are tried.
ghost use Rattle.std.specs.Prelude.{◌≡◌, ℕ, List, [], ◌∷◌};
ghost use Rattle.order.specs.Listing.{EachOnce};
ghost use Rattle.std.specs.List.{slice_get};

use engine::roster::{ENGINES, Roster};

/// An order in which the engines of a tag are tried, which may go by what it was told.
pub trait EngineOrder {
    /// The engines of a tag in the order of their places, after tellings, each a tag and an engine, the first told first; for the tags of all engines, the tag, and the loads of all engines.
    ghost listing: { Self → List (ℕ × ℕ) → List ℕ → ℕ → List ℕ → List ℕ };

    /// Every engine of the tag has one place, and no other engine has one.
    ghost complete: { (order : Self) (tellings : List (ℕ × ℕ)) (tags : List ℕ) (tag : ℕ) (loads : List ℕ) → EachOnce tags tag (listing order tellings tags tag loads) };

    // Roster, tag and loads are what is asked about; a struct of them would be made for each question.
    /// The engine at a place among the engines of the tag; nothing from their number on.
    fn place<R: Roster>(
        &self,
        roster: &R,
        tag: u32,
        loads: &[u32; ENGINES],
        place: usize,
    ) -> Option<usize>
        ensures { result ≡ slice_get (listing self.now [] (R.Roster.tags roster.now) tag loads.now) place };

    /// Tells it that an engine took a part of the tag.
    fn tell(&mut self, tag: u32, engine: usize)
        ensures { (tellings : List (ℕ × ℕ)) → listing self.new tellings ≡ listing self.old ((tag, engine) ∷ tellings) };
}
