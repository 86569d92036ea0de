//! The places of a rota.
ghost use Rattle.std.specs.Prelude.{◌≡◌, ℕ, ◌<◌, ◌≤◌, List, ◌∷◌, Some, None, ◌≢◌};
ghost use Rattle.order.specs.Rota.{is_after, remembered, rota_listing};
ghost use Rattle.order.specs.RotaLaws.{rota_complete};

use crate::order::EngineOrder;
use crate::rota::{Rota, TAGS};
use engine::roster::{ENGINES, Roster};

fn is_after(last: Option<usize>, engine: usize) -> bool
    ensures { result ≡ is_after last engine }
{
    last.is_none_or(|last| engine > last)
}

impl Rota {
    /// A rota in which no engine took a part yet.
    pub fn new() -> Rota
        ensures { (tag : ℕ) → remembered result tag ≡ None }
    {
        Rota { last: [None; TAGS] }
    }

    fn last_of(&self, tag: u32) -> Option<usize>
        ensures { result ≡ remembered self.now tag }
    {
        self.last.get(tag as usize).copied().flatten()
    }
}

impl EngineOrder for Rota {
    ghost listing = { rota_listing };

    ghost complete = { rota_complete };

    fn place<R: Roster>(
        &self,
        roster: &R,
        tag: u32,
        _loads: &[u32; ENGINES],
        place: usize,
    ) -> Option<usize> {
        let last = self.last_of(tag);
        let after = (0..roster.engines())
            .filter(|engine| roster.tag(*engine) == Some(tag))
            .filter(|engine| is_after(last, *engine));
        let others = (0..roster.engines())
            .filter(|engine| roster.tag(*engine) == Some(tag))
            .filter(|engine| !is_after(last, *engine));
        after.chain(others).nth(place)
    }

    fn tell(&mut self, tag: u32, engine: usize)
        ensures told { (tellings : List (ℕ × ℕ)) → rota_listing self.new tellings ≡ rota_listing self.old ((tag, engine) ∷ tellings) }
        ensures here { tag ≤ 7 → remembered self.new tag ≡ Some engine }
        ensures others { (other : ℕ) → (other ≢ tag) → remembered self.new other ≡ remembered self.old other }
        ensures above { 7 < tag → self.new ≡ self.old }
    {
        // The contract of `get_mut` keeps the length alone: the written item would not be known.
        let tag = tag as usize;
        if tag < TAGS {
            self.last[tag] = Some(engine);
        }
    }
}
