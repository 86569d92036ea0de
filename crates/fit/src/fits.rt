//! The fit test of an engine.
ghost use Rattle.std.specs.Int.{IsGcd};
ghost use Rattle.std.specs.Prelude.{◌≡◌, ◌-◌, ◌≤◌, ◌↔◌, IsNone, IsTrue, IfOk, IfSome, List, map, min, SomeIff};
ghost use Rattle.claim.specs.Asking.{given};
ghost use Rattle.claim.specs.Plateau.{Level};
ghost use Rattle.fit.specs.Fits.{Fits, Kept, LeastFor, Paced, Short, given_of_all};
ghost use Rattle.fit.specs.Multiple.{LeastMultiple, Periodic};
ghost use Rattle.fit.specs.Stated.{Stated};
ghost use Rattle.theory.specs.Pattern.{Pattern};

use claim::claim::Claim;
use claim::plateau::Plateau;
use engine::supply::{FARTHEST, Supply};

/// A belt cycle, in ticks.
const CYCLE: u32 = 14_400;

/// How many numbers of ticks a walk looks at.
const STEPS: usize = 128;

/// Of how many claims a walk keeps the plateaus; the claims after these are asked anew each time. A board passes no more.
const KEPT: usize = 129;

/// A walk has looked at as many numbers of ticks as it may, and cannot say yet.
#[derive(Debug, Clone, Copy, PartialEq, Eq)]
pub struct Unsettled;

/// The greatest number that divides both.
fn greatest_divisor(one: u32, other: u32) -> u32
    ensures { IsGcd one other result }
{
    let mut greater = one;
    let mut lesser = other;
    while lesser != 0 {
        let rest = greater % lesser;
        greater = lesser;
        lesser = rest;
    }
    greater
}

/// The least common multiple of the claims' periods, where all of them divide a belt cycle.
fn common_multiple(claims: &[&Claim]) -> u32
    ensures some { 1 ≤ result }
    ensures few { result ≤ 14400 }
    ensures least { Periodic (map (λ c. c.now) claims.now) → LeastMultiple (map (λ c. c.now) claims.now) result }
{
    // What divides a belt cycle so often as the result fits in it, so that no product can grow too large.
    let mut shared = CYCLE;
    for claim in claims {
        shared = greatest_divisor(shared, CYCLE / claim.period);
    }
    CYCLE / shared
}

/// What a claim asks in so many ticks. It is asked only where the plateau that is kept of it does not say.
pub(crate) fn asked(claim: &Claim, kept: &mut Plateau, ticks: u32) -> u64
    requires { Level (given claim.now) kept.old }
    ensures asked { result ≡ given claim.now ticks }
    ensures kept { Level (given claim.now) kept.new }
{
    if !kept.spans(ticks) {
        *kept = claim.plateau(ticks);
    }
    kept.most
}

/// What the claims leave of the ticks that are served in so many; nothing where they ask for more.
fn spare(claims: &[&Claim], kept: &mut [Plateau], ticks: u32, served: u64) -> Option<u64>
    requires { Kept (map (λ c. c.now) claims.now) kept.old }
    ensures spare { SomeIff result (given_of_all (map (λ c. c.now) claims.now) ticks ≤ served) (served - given_of_all (map (λ c. c.now) claims.now) ticks) }
    ensures kept { Kept (map (λ c. c.now) claims.now) kept.new }
{
    let mut left = served;
    for (place, claim) in claims.iter().enumerate() {
        let asked = if place < kept.len() {
            asked(claim, &mut kept[place], ticks)
        } else {
            claim.demand(ticks)
        };
        left = left.checked_sub(asked)?;
    }
    Some(left)
}

/// The least number of ticks in which an engine serves so much, where it does in this many.
fn least_for<P: Supply>(platform: &P, engine: usize, ticks: u32, asked: u64) -> u32
    requires few { ticks ≤ 28800 }
    requires enough { asked ≤ P.Supply.supply platform.now engine ticks }
    ensures { LeastFor (P.Supply.supply platform.now engine) asked result }
{
    // No engine serves more ticks than there are.
    let mut low = asked as u32;
    let mut high = ticks;
    while low < high {
        let middle = (low + high) / 2;
        if u64::from(platform.supply(engine, middle)) < asked {
            low = middle + 1;
        } else {
            high = middle;
        }
    }
    low
}

/// Whether the claims ask for more in so many ticks, or in twice a belt cycle if that is less, than the engine serves.
pub fn is_short<P: Supply>(platform: &P, engine: usize, claims: &[&Claim], ticks: u32) -> bool
    ensures { IsTrue result ↔ Short (P.Supply.supply platform.now engine) (map (λ c. c.now) claims.now) (min ticks 28800) }
{
    let ticks = ticks.min(FARTHEST);
    let served = u64::from(platform.supply(engine, ticks));
    spare(claims, &mut [], ticks, served).is_none()
}

/// A number of ticks in which the claims ask for more than the engine serves; nothing where there is no such number. `near` is tried first.
pub fn shortage<P: Supply>(
    platform: &P,
    engine: usize,
    claims: &[&Claim],
    near: u32,
) -> Result<Option<u32>, Unsettled>
    ensures fits { IfOk result (λ known. (ps : List Pattern) → Stated ps (map (λ c. c.now) claims.now) → IsNone known ↔ Fits (P.Supply.supply platform.now engine) ps) }
    ensures paced { IfOk result (λ known. (ps : List Pattern) → Stated ps (map (λ c. c.now) claims.now) → IsNone known → Paced (map (λ c. c.now) claims.now)) }
    ensures short { IfOk result (λ known. IfSome known (λ n. (n ≤ 28800) × Short (P.Supply.supply platform.now engine) (map (λ c. c.now) claims.now) n)) }
{
    if is_short(platform, engine, claims, near) {
        return Ok(Some(near.min(FARTHEST)));
    }
    // Twice a common multiple of the periods settles every number of ticks, so the walk begins there.
    let farthest = 2 * common_multiple(claims);
    let mut ticks = farthest;
    let mut kept = [Plateau::NOWHERE; KEPT];
    for _ in 0..STEPS {
        if ticks == 0 {
            return Ok(None);
        }
        let served = u64::from(platform.supply(engine, ticks));
        let Some(spare) = spare(claims, &mut kept, ticks, served) else {
            return Ok(Some(ticks));
        };
        // In fewer ticks no more is asked, so those in which as much is served need no look.
        ticks = least_for(platform, engine, ticks, served - spare).saturating_sub(1);
    }
    Err(Unsettled)
}
