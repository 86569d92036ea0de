//! The line of an answer that refuses.
ghost use Rattle.std.specs.Prelude.{◌≡◌, IfOk, string_bytes};
ghost use Rattle.listing.specs.Lines.{refusal_line};

use std::alloc::{AllocError, Global};

/// The answer where a text is refused, or the choice is.
pub fn refusal_line(heap: Global, number: u32, place: u32) -> Result<String, AllocError>
    ensures { IfOk result (λ s. string_bytes s ≡ refusal_line number place) }
{
    format!(in heap; "answer={number},{place}\n")
}
