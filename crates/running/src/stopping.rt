//! Stopping a board.
ghost use Rattle.std.specs.Prelude.{◌≡◌};

use crate::running::Running;
use board::board::Board;

impl<P, R, O> Running<P, R, O> {
    /// Stops the board: its arrivals are gone, and its jobs stay where they are.
    pub fn stop(self) -> Board<P, R, O>
        ensures { result ≡ self.board }
    {
        self.board
    }
}
