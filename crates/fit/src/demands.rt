//! What a claim asks in each number of ticks.
ghost use Rattle.std.specs.Prelude.{◌≡◌, ℕ, ◌<◌, ◌≤◌, ◌+◌, min, slice_index};
ghost use Rattle.claim.specs.Asking.{all_due, given};
ghost use Rattle.fit.specs.Room.{Tabled};

use crate::fits::asked;
use claim::claim::Claim;
use claim::plateau::Plateau;
use engine::supply::FARTHEST;

/// The numbers of ticks that the fit test is about, from none to twice a belt cycle.
pub(crate) const NUMBERS: usize = FARTHEST as usize + 1;

/// A claim, and beside each number of ticks up to twice a belt cycle what it asks, or more than any engine serves.
#[derive(Debug, Clone, Copy, PartialEq, Eq)]
pub struct Demands {
    pub(crate) claim: Claim,
    pub(crate) most: [u16; NUMBERS],
    ghost tabled: { Tabled (given claim) most },
}

/// So many ticks, or the most that a place of the table holds.
fn held(ticks: u64) -> u16
    ensures { result ≡ min ticks 65535 }
{
    ticks.min(u64::from(u16::MAX)) as u16
}

/// Writes what the claim asks in each number of ticks below this one.
fn ask_below(claim: &Claim, most: &mut [u16; NUMBERS], end: usize)
    requires { end ≤ 28801 }
    ensures { (n : ℕ) → n < end → slice_index most.new n ≡ min (given claim.now n) 65535 }
{
    let mut kept = Plateau::NOWHERE;
    // A plateau speaks of the numbers below it, so they are looked at from the highest on.
    for ticks in (0..end).rev() {
        most[ticks] = held(asked(claim, &mut kept, ticks as u32));
    }
}

/// Writes what the claim asks in each number of ticks from this one on, where those below stand.
fn go_on(claim: &Claim, most: &mut [u16; NUMBERS], begin: usize)
    requires far { begin < 28801 → all_due claim.now + claim.now.period ≤ begin }
    requires below { (n : ℕ) → n < begin → n ≤ 28800 → slice_index most.old n ≡ min (given claim.now n) 65535 }
    ensures { Tabled (given claim.now) most.new }
{
    let period = claim.period as usize;
    let whole = held(u64::from(claim.whole));
    for ticks in begin..NUMBERS {
        most[ticks] = most[ticks - period].saturating_add(whole);
    }
}

impl Demands {
    /// What the claim asks.
    pub fn of(claim: &Claim) -> Demands
        ensures { result.claim ≡ claim.now }
    {
        let mut most = [0; NUMBERS];
        // From here on a period more asks for one whole arrival more.
        let steady = u64::from(claim.all_due()) + u64::from(claim.period);
        let begin = steady.min(NUMBERS as u64) as usize;
        ask_below(claim, &mut most, begin);
        go_on(claim, &mut most, begin);
        Demands {
            claim: *claim,
            most,
        }
    }
}
