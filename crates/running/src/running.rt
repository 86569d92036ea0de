//! A board that runs.
ghost use Rattle.std.specs.Prelude.{◌≡◌, map};
ghost use Rattle.board.specs.Residents.{jobs};
ghost use Rattle.dispatch.specs.Table.{state_of};
ghost use Rattle.resident.specs.Resident.{number_of};
ghost use Rattle.running.specs.Numbers.{numbers_in};

use board::board::Board;
use dispatch::table::Table;

/// A board that runs: the board that was started, and where its jobs stand, with a slot for each job in the same order.
#[derive(Drop)]
pub struct Running<P, R, O> {
    pub(crate) board: Board<P, R, O>,
    pub(crate) table: Table,
    ghost numbered: { numbers_in (state_of table) ≡ map number_of (jobs board.residents) },
}
