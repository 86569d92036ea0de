//! The open sub-tasks of a board that runs.
ghost use Rattle.std.specs.Prelude.{◌≡◌, ◌*◌, ◌≤◌, true, take};
ghost use Rattle.dispatch.specs.Slot.{slot_in_time};
ghost use Rattle.std.specs.List.{list_all};

use crate::slot::Slot;
use task::node::Ticks;

/// The most jobs that a board has.
pub const SLOTS: usize = 16;

/// The last clock of a board.
pub const LAST: Ticks = 2_000_000_000;

/// The clock of a board, how many sub-tasks were late so far, and the slots of its jobs: they lie in the first `len` places. What waits is not yet released, and what is ready is.
#[derive(Debug, Clone, Copy, PartialEq, Eq)]
pub struct Table {
    pub(crate) clock: Ticks,
    pub(crate) late_total: u64,
    pub(crate) slots: [Slot; SLOTS],
    pub(crate) len: usize,
    ghost short: { clock ≤ 2000000000 },
    ghost counted: { late_total ≤ 384 * clock },
    ghost few: { len ≤ 16 },
    ghost in_time: { list_all (slot_in_time clock) (take len slots) ≡ true },
}
