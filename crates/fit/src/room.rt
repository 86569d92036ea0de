//! What an engine has left beside claims, in each number of ticks.
ghost use Rattle.std.specs.Prelude.{◌≡◌, ℕ, ◌≤◌, ◌↔◌, ◌+◌, ◌-◌, ◌∷◌, IfSome, IsNone, List, map, min, slice_index};
ghost use Rattle.claim.specs.declared.claim.Claim.{Claim};
ghost use Rattle.engine.specs.Supply.{Lawful};
ghost use Rattle.fit.specs.Fits.{Fits, Short};
ghost use Rattle.fit.specs.Room.{Leaves};
ghost use Rattle.fit.specs.Stated.{Stated};
ghost use Rattle.theory.specs.Pattern.{Pattern};

use crate::demands::{Demands, NUMBERS};
use claim::claim::Claim;
use engine::supply::{FARTHEST, Supply};
use std::array;

/// Beside each number of ticks up to twice a belt cycle, the least that is too much to ask in it.
#[derive(Debug, Clone, Copy, PartialEq, Eq)]
pub struct Room {
    too_much: [u16; NUMBERS],
}

/// One tick more than the engine serves in so many, or in twice a belt cycle if that is less.
fn unserved<P: Supply>(platform: &P, engine: usize, ticks: usize) -> u16
    ensures { result ≡ P.Supply.supply platform.now engine (min ticks 28800) + 1 }
{
    let ticks = ticks.min(FARTHEST as usize) as u32;
    platform.supply(engine, ticks) as u16 + 1
}

impl Room {
    /// Takes away what a claim asks.
    fn take(&mut self, demands: &Demands)
        ensures { (n : ℕ) → n ≤ 28800 → slice_index self.new.too_much n ≡ slice_index self.old.too_much n - slice_index demands.now.most n }
    {
        for ticks in 0..NUMBERS {
            self.too_much[ticks] = self.too_much[ticks].saturating_sub(demands.most[ticks]);
        }
    }

    /// What the claims leave on the engine.
    pub fn beside<P: Supply>(platform: &P, engine: usize, claims: &[&Claim]) -> Room
        ensures { Leaves (P.Supply.supply platform.now engine) (map (λ c. c.now) claims.now) result }
    {
        let mut room = Room {
            too_much: array::from_fn(|ticks| unserved(platform, engine, ticks)),
        };
        for claim in claims {
            room.take(&Demands::of(claim));
        }
        room
    }

    /// A number of ticks in which one more claim asks for too much; nothing where there is no such number.
    pub fn shortage(&self, demands: &Demands) -> Option<u32>
        ensures fits { (s : ℕ → ℕ) (cycle quota : ℕ) (cs : List Claim) (ps : List Pattern) → Lawful s cycle quota → Leaves s cs self.now → Stated ps (demands.now.claim ∷ cs) → IsNone result ↔ Fits s ps }
        ensures short { (s : ℕ → ℕ) (cs : List Claim) → Leaves s cs self.now → IfSome result (λ n. (n ≤ 28800) × Short s (demands.now.claim ∷ cs) n) }
    {
        for ticks in 0..NUMBERS {
            if self.too_much[ticks] <= demands.most[ticks] {
                return Some(ticks as u32);
            }
        }
        None
    }
}
