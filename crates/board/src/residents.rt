//! The jobs of a board.
ghost use Rattle.std.specs.Prelude.{map, nat_eq};
ghost use Rattle.board.specs.Listed.{listed};
ghost use Rattle.resident.specs.Resident.{number_of};
ghost use Rattle.std.proofs.Props.{props};
ghost use Rattle.std.specs.List.{IsDistinct};

use few::few::Few;
use resident::resident::Resident;

/// The most jobs of a board.
pub const RESIDENTS: usize = 16;

/// The jobs of a board, the first loaded first. No two have the same number.
#[derive(Debug, Clone, Copy, PartialEq, Eq)]
pub struct Residents {
    // A list has a job in each place from the start, so before the first job there is no list.
    pub(crate) kept: Option<Few<Resident, RESIDENTS>>,
    ghost apart: { IsDistinct nat_eq (map number_of (listed kept)) } by { Prim.hlevel props },
}
