//! Making the claim of a part.
ghost use Rattle.std.specs.Prelude.{◌≡◌, ◌<◌, ◌≤◌, false, [], length, map, slice_index, slice_index_or, MatchOption};
ghost use Rattle.std.specs.List.Sorted.{IsNonDecreasing, IsPermutation};
ghost use Rattle.claim.specs.Claim.{Claims};
ghost use Rattle.claim.specs.Making.{CutOf, CutsOf, most_within};
ghost use Rattle.few.specs.Few.{items};
ghost use Rattle.plan.specs.Part.{part_of, tasks_in};
ghost use Rattle.plan.specs.Pattern.{branch_of, part_pattern};
ghost use Rattle.theory.specs.Pattern.{inner};

use crate::claim::{Claim, Cut};
use few::few::Few;
use plan::part::{Part, Task};
use plan::plan::Plan;
use std::array;
use task::node::{NODES, Ticks};

/// Whether the row says that the sub-task is reached.
fn is_reached(row: &[bool; NODES], task: &Task) -> bool
    ensures { result ≡ slice_index_or row.now task.now.node false }
{
    row.get(task.node).copied().unwrap_or(false)
}

/// The work of one arrival with this row, of the windows between two moments after it.
fn within(part: &Part, row: &[bool; NODES], from: Ticks, by: Ticks) -> Ticks
    ensures work { result ≡ inner (branch_of (tasks_in part.now) row.now) from by }
    ensures light { result ≤ 345600 }
{
    part.tasks
        .iter()
        .filter(|task| is_reached(row, task)
            && from <= task.window.offset
            && task.window.deadline <= by)
        .map(|task| task.ticks)
        .sum()
}

/// The most that one arrival asks between two moments after it.
fn most_within(part: &Part, rows: &[[bool; NODES]], from: Ticks, by: Ticks) -> Ticks
    ensures most { result ≡ most_within (tasks_in part.now) rows.now from by }
    ensures light { result ≤ 345600 }
{
    rows.iter()
        .fold(0, |most, row| within(part, row, from, by).max(most))
}

/// What stands at a place of the cut: what one arrival asks by the end of that place.
fn beside(part: &Part, rows: &[[bool; NODES]], ends: &[Ticks], from: Ticks, place: usize) -> Ticks
    ensures most { place < length ends.now → result ≡ most_within (tasks_in part.now) rows.now from (slice_index ends.now place) }
    ensures light { place < length ends.now → result ≤ 345600 }
    ensures past { length ends.now ≤ place → result ≡ 4294967295 }
{
    // What stands past the ends is never read; there it is great, so that the places rise.
    ends.get(place)
        .map_or(Ticks::MAX, |end| most_within(part, rows, from, *end))
}

/// The cut at a moment after an arrival, for these ends.
fn cut(part: &Part, rows: &[[bool; NODES]], ends: &[Ticks], from: Ticks) -> Cut
    requires few { length ends.now ≤ 24 }
    requires rising { IsNonDecreasing ends.now }
    ensures { CutOf (tasks_in part.now) rows.now ends.now from result }
{
    Cut {
        from,
        most: array::from_fn(|place| beside(part, rows, ends, from, place)),
    }
}

/// The ends of the sub-tasks' windows, rising.
fn ends(part: &Part) -> Few<Ticks, NODES>
    ensures rising { IsNonDecreasing (items result) }
    ensures same { IsPermutation (map (λ t. t.window.deadline) (tasks_in part.now)) (items result) }
{
    let mut ends = Few::new(0);
    for task in part.tasks.iter() {
        ends.push(task.window.deadline).unwrap();
    }
    ends.sort();
    ends
}

/// The cuts at the sub-tasks' offsets, for these ends; the blank fills the places after the last one.
fn cuts(part: &Part, rows: &[[bool; NODES]], ends: &[Ticks], blank: Cut) -> Few<Cut, NODES>
    requires few { length ends.now ≤ 24 }
    requires rising { IsNonDecreasing ends.now }
    ensures { CutsOf (tasks_in part.now) rows.now ends.now (items result) }
{
    let mut cuts = Few::new(blank);
    for task in part.tasks.iter() {
        cuts.push(cut(part, rows, ends, task.window.offset))
            .unwrap();
    }
    cuts
}

impl Claim {
    /// The claim of the part of a tag; nothing where the plan has no sub-task of the tag.
    pub fn of(plan: &Plan, tag: u32) -> Option<Claim>
        ensures { MatchOption result (part_of plan.now tag ≡ []) (λ c. (1 ≤ length (part_of plan.now tag)) × Claims (part_pattern plan.now tag) c) }
    {
        let part = plan.part(tag);
        if part.tasks.is_empty() {
            return None;
        }
        let rows = plan.reached.as_slice();
        let ends = ends(&part);
        let arrival = cut(&part, rows, ends.as_slice(), 0);
        Some(Claim {
            period: plan.job.period,
            deadline: plan.job.deadline,
            whole: most_within(&part, rows, 0, plan.job.deadline),
            ends,
            arrival,
            cuts: cuts(&part, rows, ends.as_slice(), arrival),
        })
    }
}
