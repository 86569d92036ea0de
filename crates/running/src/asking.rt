//! What is asked of a board that runs.
ghost use Rattle.std.specs.Prelude.{◌≡◌, IfErr, IfOk};
ghost use Rattle.board.specs.Residents.{jobs};
ghost use Rattle.board.specs.Sheets.{SheetRefused, SheetWritten};
ghost use Rattle.running.specs.View.{view};

use crate::running::Running;
use board::refusal::Refusal;

impl<P, R, O> Running<P, R, O> {
    /// How many sub-tasks were late since the start.
    pub fn late_total(&self) -> u64
        ensures { result ≡ (view self.now).lates }
    {
        self.table.late_total()
    }

    /// Writes the sheet of a job into the first bytes of a buffer, and answers how many they are.
    pub fn sheet(&self, number: u32, buffer: &mut [u8]) -> Result<usize, Refusal>
        ensures written { IfOk result (λ n. SheetWritten (jobs self.now.board.residents) number buffer.old n buffer.new) }
        ensures refused { IfErr result (λ f. SheetRefused (jobs self.now.board.residents) number buffer.old f × (buffer.new ≡ buffer.old)) }
    {
        self.board.sheet(number, buffer)
    }
}
