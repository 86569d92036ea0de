//! The tags of engines.
ghost use Rattle.std.specs.Prelude.{◌≡◌, ◌≤◌, length, All, MatchOption};
ghost use Rattle.few.specs.Few.{items};

use crate::roster::ENGINES;
use few::few::Few;

/// The highest tag. It stands here too, since this crate does not know `task`.
const HIGHEST: u32 = 7;

/// The tags of 1 to 16 engines, in their order.
#[derive(Debug, Clone, Copy, PartialEq, Eq)]
pub struct Tags {
    pub tags: Few<u32, ENGINES>,
    ghost some: { 1 ≤ length (items tags) },
    ghost few: { length (items tags) ≤ 16 },
    ghost small: { All (λ t. t ≤ 7) (items tags) },
}

impl Tags {
    ghost use Rattle.engine.specs.Roster.{Rostered, tag_of};
    ghost use Rattle.engine.specs.Tags.{tag_list};

    /// These tags; nothing where they are not 1 to 16 or one is above 7.
    pub fn new(tags: &[u32]) -> Option<Tags>
        ensures { MatchOption result (Rostered tags.now → ⊥) (λ t. tag_list t ≡ tags.now) }
    {
        // How many there are is asked first, so that too many are not gone through.
        if tags.is_empty() || tags.len() > ENGINES || !tags.iter().all(|tag| *tag <= HIGHEST) {
            return None;
        }
        Some(Tags {
            tags: Few::from_slice(0, tags)?,
        })
    }

    /// How many engines there are.
    pub fn count(&self) -> usize
        ensures { result ≡ length (tag_list self.now) }
    {
        self.tags.len()
    }

    /// The tag of an engine; nothing where there is no such engine.
    pub fn tag(&self, engine: usize) -> Option<u32>
        ensures { result ≡ tag_of (tag_list self.now) engine }
    {
        self.tags.get(engine).copied()
    }
}
