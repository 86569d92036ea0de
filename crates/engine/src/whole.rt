//! A platform whose engines serve every tick.
ghost use Rattle.std.specs.Prelude.{length};
ghost use Rattle.engine.specs.Tags.{tag_list};
ghost use Rattle.engine.specs.Whole.{whole_laws, whole_supply};
ghost use Rattle.engine.specs.TagLaws.{rostered_tags};
ghost use Rattle.std.proofs.Common.{rules};

use crate::roster::Roster;
use crate::supply::{FARTHEST, Supply};
use crate::tags::Tags;

/// Every tick is like the one before.
const CYCLE: u32 = 1;

/// Engines that serve every tick.
#[derive(Debug, Clone, Copy, PartialEq, Eq)]
pub struct Whole {
    pub tags: Tags,
}

impl Roster for Whole {
    ghost tags = { λ p. tag_list p.tags };

    ghost rostered = { λ p. rostered_tags p.tags };

    // Each platform hands on to its tags: a trait that says it once would ask every roster for such tags.
    fn engines(&self) -> usize {
        self.tags.count()
    }

    fn tag(&self, engine: usize) -> Option<u32> {
        self.tags.tag(engine)
    }
}

impl Supply for Whole {
    ghost supply = { λ p e n. whole_supply (length (tag_list p.tags)) e n };

    ghost cycle = { λ p e. 1 };

    ghost quota = { λ p e. whole_supply (length (tag_list p.tags)) e 1 };

    ghost laws = { λ p e. whole_laws (length (tag_list p.tags)) e };

    ghost missing = { Prim.search rules };

    fn supply(&self, engine: usize, ticks: u32) -> u32 {
        if engine < self.tags.count() {
            ticks.min(FARTHEST)
        } else {
            0
        }
    }

    fn cycle(&self, _engine: usize) -> u32 {
        CYCLE
    }

    fn quota(&self, engine: usize) -> u32 {
        u32::from(engine < self.tags.count())
    }
}
