//! What a part asks of its engine.
ghost use Rattle.std.specs.Prelude.{◌≡◌, ℕ, ◌<◌, ◌≤◌, length, slice_index};
ghost use Rattle.std.specs.List.Sorted.{IsNonDecreasing};
ghost use Rattle.few.specs.Few.{items};

use few::few::Few;
use task::node::{NODES, Ticks};

/// What one arrival can ask from a moment after it on: beside each end of the claim, the most that falls due by it.
#[derive(Debug, Clone, Copy, PartialEq, Eq)]
pub struct Cut {
    pub from: Ticks,
    // As many places as the claim has ends are read, so a length of its own would say the same twice.
    pub most: [Ticks; NODES],
    ghost placed: { length most ≡ 24 },
    ghost rising: { IsNonDecreasing most },
}

/// What a part asks: the ends of its sub-tasks' windows, rising, a cut at the arrival, and one at the offset of each of them.
#[derive(Debug, Clone, Copy, PartialEq, Eq)]
pub struct Claim {
    pub period: Ticks,
    pub deadline: Ticks,
    /// The most that one whole arrival asks.
    pub whole: Ticks,
    pub ends: Few<Ticks, NODES>,
    pub arrival: Cut,
    pub cuts: Few<Cut, NODES>,
    ghost some: { 1 ≤ period },
    ghost light: { whole ≤ 345600 },
    ghost sorted: { IsNonDecreasing (items ends) },
    ghost covered: { (i : ℕ) → i < length (items ends) → slice_index arrival.most i ≤ whole },
}
