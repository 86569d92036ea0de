//! All that the seating program prints.
ghost use Rattle.std.specs.Prelude.{◌≡◌, IfOk, string_bytes};
ghost use Rattle.board.specs.Residents.{jobs};
ghost use Rattle.listing.specs.Listing.{Answered, Lists};
ghost use Rattle.listing.specs.Rules.{seat_rules};
ghost use Rattle.std.specs.Option.{option_map};
ghost use Rattle.worked.specs.Cases.{WorkedCases};

use crate::answer::{SeatBoard, answer};
use crate::opening::{Opened, open};
use board::board::Board;
use order::fullest::Fullest;
use slack::proportional::Proportional;
use std::alloc::{AllocError, Global};
use text::texts::first_text;

/// The answers to job texts, one after the other, by a board that takes the jobs that it can place.
#[tactic(auto, using(crate::proofs::Leftover::leftover_falls))]
fn answers(heap: Global, board: &mut SeatBoard, texts: Option<&[u8]>) -> Result<String, AllocError>
    ensures { IfOk result (λ s. Answered (seat_rules board.old.platform) (jobs board.old.residents) (option_map (λ x. x.now) texts.entry) (string_bytes s)) }
{
    let mut lines = String::new(heap);
    let mut left = texts;
    while let Some(input) = left {
        let (text, more) = first_text(input);
        lines.push_str(&answer(heap, board, text)?)?;
        left = more;
    }
    Ok(lines)
}

/// What the seating program prints of its input: a platform text and job texts, parted by empty lines.
pub fn listing(heap: Global, input: &[u8]) -> Result<String, AllocError>
    ensures lists { IfOk result (λ s. Lists input.now (string_bytes s)) }
    ensures worked { WorkedCases }
{
    match open(input) {
        Ok(Opened { platform, texts }) => {
            let mut board = Board::new(platform, Proportional, Fullest);
            answers(heap, &mut board, texts)
        }
        Err(fault) => format!(in heap; "answer={fault}\n"),
    }
}
