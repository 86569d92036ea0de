//! The jobs of a board, and their sheets.
ghost use Rattle.std.specs.Prelude.{◌≡◌, ◌≤◌, length, IfErr, IfOk};
ghost use Rattle.board.specs.Residents.{jobs, resident_of};
ghost use Rattle.board.specs.Sheets.{SheetRefused, SheetWritten};
ghost use Rattle.std.specs.Option.{option_map};

use crate::board::Board;
use crate::refusal::Refusal;
use resident::resident::Resident;
use sheet::sheet::{Short, write_sheet};

impl<P, R, O> Board<P, R, O> {
    /// Its jobs, the first loaded first.
    pub fn residents(&self) -> &[Resident]
        ensures jobs { result.now ≡ jobs self.now.residents }
        ensures few { length result.now ≤ 16 }
    {
        self.residents.as_slice()
    }

    /// The job with the number.
    pub fn resident(&self, number: u32) -> Option<&Resident>
        ensures { option_map (λ r. r.now) result ≡ resident_of (jobs self.now.residents) number }
    {
        self.residents
            .as_slice()
            .iter()
            .find(|resident| resident.number() == number)
    }

    /// Writes the sheet of a job into the first bytes of a buffer, and answers how many they are.
    pub fn sheet(&self, number: u32, buffer: &mut [u8]) -> Result<usize, Refusal>
        ensures written { IfOk result (λ n. SheetWritten (jobs self.now.residents) number buffer.old n buffer.new) }
        ensures refused { IfErr result (λ f. SheetRefused (jobs self.now.residents) number buffer.old f × (buffer.new ≡ buffer.old)) }
    {
        let Some(resident) = self.resident(number) else {
            return Err(Refusal::NotResident);
        };
        match write_sheet(resident, buffer) {
            Ok(length) => Ok(length),
            Err(Short) => Err(Refusal::ShortBuffer),
        }
    }
}
