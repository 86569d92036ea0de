//! A job that sits on the engines of a board.
ghost use Rattle.std.specs.Prelude.{◌≡◌, map};
ghost use Rattle.few.specs.Few.{items};
ghost use Rattle.resident.specs.Seats.{Seated, parts_of};

use claim::claim::Claim;
use few::few::Few;
use plan::plan::Plan;

/// The most parts of a job: one for each tag.
pub const PARTS: usize = 8;

/// The engine that the part of a tag sits on, and what the part asks there.
#[derive(Debug, Clone, Copy, PartialEq, Eq)]
pub struct Seat {
    pub tag: u32,
    pub engine: usize,
    pub claim: Claim,
}

/// A placed job: its plan, and a seat for each of its parts, by rising tag.
#[derive(Debug, Clone, Copy, PartialEq, Eq)]
pub struct Resident {
    pub plan: Plan,
    pub seats: Few<Seat, PARTS>,
    ghost seated: { Seated plan (items seats) },
    ghost parts: { map (λ s. s.tag) (items seats) ≡ parts_of plan },
}
