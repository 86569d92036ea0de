//! The answer to a job text.
ghost use Rattle.std.specs.Prelude.{◌≡◌, IfOk, string_bytes};
ghost use Rattle.board.specs.Residents.{jobs};
ghost use Rattle.listing.specs.Answer.{Answers};
ghost use Rattle.listing.specs.Rules.{seat_rules};

use board::board::Board;
use engine::calendar::Calendar;
use order::fullest::Fullest;
use sheet::sheet::Sheet;
use slack::proportional::Proportional;
use std::alloc::{AllocError, Global};

/// The board of the seating program.
pub(crate) type SeatBoard = Board<Calendar, Proportional, Fullest>;

/// Loads the job of a text, and makes the answer to it.
pub(crate) fn answer(heap: Global, board: &mut SeatBoard, text: &[u8]) -> Result<String, AllocError>
    ensures answer { IfOk result (λ s. Answers (seat_rules board.old.platform) (jobs board.old.residents) text.now (jobs board.new.residents) (string_bytes s)) }
    ensures kept { board.new.platform ≡ board.old.platform }
{
    match board.load(text) {
        Ok(number) => {
            let resident = board.resident(number).unwrap();
            format!(in heap; "answer=0\n{}", Sheet { resident })
        }
        Err(refusal) => format!(in heap; "answer={refusal}\n"),
    }
}
