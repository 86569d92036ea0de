//! The engines with most load first.
ghost use Rattle.std.specs.Prelude.{◌≡◌, [], map, slice_get};
ghost use Rattle.few.specs.Few.{items};
ghost use Rattle.order.specs.Fullest.{before, candidate, fullest_listing};
ghost use Rattle.order.specs.FullestLaws.{fullest_complete};
ghost use Rattle.order.specs.Listing.{engines_of};
ghost use Rattle.order.specs.Sorting.{InOrder};

use crate::least::least;
use crate::order::EngineOrder;
use engine::roster::{ENGINES, Roster};
use few::few::Few;
use std::cmp::Reverse;

/// Most load first, then the lower number.
#[derive(Debug, Clone, Copy, PartialEq, Eq)]
pub struct Fullest;

/// An engine that may be tried, with its load. The less comes first.
#[derive(Debug, Clone, Copy, PartialEq, Eq, PartialOrd, Ord)]
struct Candidate {
    load: Reverse<u32>,
    engine: usize,
}

// They are put into a list of the caller, since a list that is returned is copied.
/// Puts the engines of the tag with their loads into an empty list.
fn gather<R: Roster>(
    roster: &R,
    tag: u32,
    loads: &[u32; ENGINES],
    candidates: &mut Few<Candidate, ENGINES>,
)
    requires { items candidates.now ≡ [] }
    ensures { items candidates.new ≡ map (candidate loads.now) (engines_of (R.Roster.tags roster.now) tag) }
{
    for engine in 0..roster.engines() {
        if roster.tag(engine) == Some(tag) {
            let load = Reverse(loads[engine]);
            candidates.push(Candidate { load, engine }).unwrap();
        }
    }
}

impl EngineOrder for Fullest {
    ghost listing = { fullest_listing };

    ghost complete = { fullest_complete };

    fn place<R: Roster>(
        &self,
        roster: &R,
        tag: u32,
        loads: &[u32; ENGINES],
        place: usize,
    ) -> Option<usize>
        ensures at { result ≡ slice_get (fullest_listing self.now [] (R.Roster.tags roster.now) tag loads.now) place }
        ensures sorted { InOrder (before loads.now) (fullest_listing self.now [] (R.Roster.tags roster.now) tag loads.now) }
    {
        let mut candidates = Few::new(Candidate {
            load: Reverse(0),
            engine: 0,
        });
        gather(roster, tag, loads, &mut candidates);
        if place == 0 {
            let first = least(&candidates)?;
            return Some(candidates[first].engine);
        }
        candidates.sort();
        candidates.get(place).map(|candidate| candidate.engine)
    }

    fn tell(&mut self, _tag: u32, _engine: usize) {}
}
