//! The demand that a claim states.
ghost use Rattle.std.specs.Prelude.{◌≡◌, ℕ, ◌+◌, ◌-◌, ◌*◌, ◌/◌, ◌<◌, ◌≤◌, ◌^◌, length, slice_index};
ghost use Rattle.claim.specs.Asking.{Begins, Steady, all_due, ended, given, given_at, reach_of, step};
ghost use Rattle.claim.specs.Claim.{Claims};
ghost use Rattle.claim.specs.Plateau.{Level};
ghost use Rattle.few.specs.Few.{items};
ghost use Rattle.theory.specs.Demand.{demand};
ghost use Rattle.theory.specs.Pattern.{Pattern, WellFormed};

use crate::claim::{Claim, Cut};
use crate::plateau::Plateau;
use task::node::{NODES, Ticks};

/// What falls due up to a moment after an arrival: the ends that the arrival has passed by then, the whole arrivals after it, and the ends that the last arrival has passed.
#[derive(Debug, Clone, Copy, PartialEq, Eq)]
pub(crate) struct Reach {
    pub(crate) first: usize,
    pub(crate) wholes: u64,
    pub(crate) last: usize,
}

/// Up to an arrival itself.
const NOTHING: Reach = Reach {
    first: 0,
    wholes: 0,
    last: 0,
};

/// What stands beside the last of so many ends.
fn step(values: &[Ticks], ended: usize) -> Ticks
    ensures { result ≡ step values.now ended }
{
    ended
        .checked_sub(1)
        .and_then(|last| values.get(last))
        .map_or(0, |ticks| *ticks)
}

impl Claim {
    /// Where the search for ends up to `y` can begin: at `near`, if all before it are.
    fn begin(&self, y: u64, near: usize) -> usize
        ensures few { result ≤ length (items self.now.ends) }
        ensures passed { 0 < result → slice_index (items self.now.ends) (result - 1) ≤ y }
    {
        // Ends rise, so the one before it speaks for all.
        match near.checked_sub(1).and_then(|last| self.ends.get(last)) {
            Some(end) if u64::from(*end) <= y => near,
            _ => 0,
        }
    }

    /// How many ends are at most `y`. The search begins at `near`: the moments of a claim mostly rise, each by a little.
    fn ended(&self, y: u64, near: usize) -> usize
        ensures { result ≡ ended (items self.now.ends) y }
    {
        let ends = self.ends.as_slice();
        let mut ended = self.begin(y, near);
        while ended < ends.len() && u64::from(ends[ended]) <= y {
            ended += 1;
        }
        ended
    }

    /// How many whole arrivals come up to so long after the first of them is due. `near` is tried first, since a division takes long.
    fn wholes(&self, past: u64, near: u64) -> u64
        ensures { result ≡ past / self.now.period }
    {
        let period = u64::from(self.period);
        let wholes = near.min(u64::from(u32::MAX));
        let begin = wholes * period;
        if begin <= past && past - begin < period {
            wholes
        } else {
            past / period
        }
    }

    /// What falls due up to `y`; `near` is such an answer for a moment that is not far.
    fn reach(&self, y: u64, near: Reach) -> Reach
        requires { y < 2 ^ 40 }
        ensures is { result ≡ reach_of self.now y }
        ensures few { result.wholes < 2 ^ 40 }
        ensures near { result.wholes * self.now.period < 2 ^ 40 }
    {
        let period = u64::from(self.period);
        let wholes = self.wholes(y.saturating_sub(u64::from(self.deadline)), near.wholes);
        let rest = y.saturating_sub((wholes + 1) * period);
        Reach {
            first: self.ended(y, near.first),
            wholes,
            last: self.ended(rest, near.last),
        }
    }

    /// The ticks of that, where the first arrival is looked at from a cut on.
    fn due(&self, cut: &Cut, reach: Reach) -> u64
        requires { reach.wholes < 2 ^ 40 }
        ensures { result ≡ step cut.now.most reach.first + (reach.wholes * self.now.whole + step self.now.arrival.most reach.last) }
    {
        let first = u64::from(step(&cut.most, reach.first));
        let last = u64::from(step(&self.arrival.most, reach.last));
        first + (reach.wholes * u64::from(self.whole) + last)
    }

    /// The moment at which the last of that falls due.
    fn last_due(&self, reach: Reach) -> u64
        requires { reach.wholes * self.now.period < 2 ^ 40 }
        ensures { (y : ℕ) → reach ≡ reach_of self.now y → Begins self.now y result }
    {
        let period = u64::from(self.period);
        let first = u64::from(step(self.ends.as_slice(), reach.first));
        let whole = match reach.wholes {
            0 => 0,
            wholes => wholes * period + u64::from(self.deadline),
        };
        let last = match step(self.ends.as_slice(), reach.last) {
            0 => 0,
            end => (reach.wholes + 1) * period + u64::from(end),
        };
        first.max(whole).max(last)
    }

    /// What falls due within so many ticks from a cut on.
    fn plateau_at(&self, cut: &Cut, ticks: u32, reach: Reach) -> Plateau
        requires is { reach ≡ reach_of self.now (cut.now.«from» + ticks) }
        requires few { reach.wholes < 2 ^ 40 }
        requires near { reach.wholes * self.now.period < 2 ^ 40 }
        ensures here { result.until ≡ ticks }
        ensures within { result.since ≤ ticks }
        ensures level { Level (λ n. given_at self.now n cut.now) result }
    {
        let since = self.last_due(reach).saturating_sub(u64::from(cut.from));
        Plateau {
            most: self.due(cut, reach),
            since: since as u32,
            until: ticks,
        }
    }

    /// The most that can fall due within so many ticks, and in how few already.
    pub fn plateau(&self, ticks: u32) -> Plateau
        ensures here { result.until ≡ ticks }
        ensures within { result.since ≤ ticks }
        ensures level { Level (given self.now) result }
    {
        let mut reach = self.reach(u64::from(self.arrival.from) + u64::from(ticks), NOTHING);
        let mut plateau = self.plateau_at(&self.arrival, ticks, reach);
        for cut in self.cuts.iter() {
            reach = self.reach(u64::from(cut.from) + u64::from(ticks), reach);
            // From when on a lower cut is as high plays no part.
            if plateau.most <= self.due(cut, reach) {
                plateau = self.plateau_at(cut, ticks, reach).or_higher(plateau);
            }
        }
        plateau
    }

    /// The most that can fall due within so many ticks.
    pub fn demand(&self, ticks: u32) -> u64
        ensures given { result ≡ given self.now ticks }
        ensures demand { (p : Pattern) → WellFormed p → Claims p self.now → result ≡ demand p ticks }
    {
        self.plateau(ticks).most
    }

    /// When all that an arrival asks has fallen due. In so many ticks or more, a period more asks for one whole arrival more.
    pub fn all_due(&self) -> u32
        ensures due { result ≡ all_due self.now }
        ensures steady { Steady self.now result }
    {
        self.ends
            .iter()
            .fold(self.deadline, |latest, end| (*end).max(latest))
    }
}
