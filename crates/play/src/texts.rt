//! The parts of the input.
ghost use Rattle.std.specs.Prelude.{map, IfOk};
ghost use Rattle.play.specs.Texts.{Texts};
ghost use Rattle.std.specs.Option.{option_map};

use std::alloc::{AllocError, Global};
use text::texts::first_text;

/// The texts of an input, parted by empty lines.
#[tactic(auto, using(crate::proofs::Left::left_falls))]
pub(crate) fn texts(heap: Global, papers: Option<&[u8]>) -> Result<Vec<&[u8]>, AllocError>
    ensures { IfOk result (λ texts. Texts (option_map (λ x. x.now) papers.entry) (map (λ x. x.now) texts.items)) }
{
    let mut texts = Vec::new(heap);
    let mut left = papers;
    while let Some(input) = left {
        let (text, more) = first_text(input);
        texts.push(text)?;
        left = more;
    }
    Ok(texts)
}

/// The lines of a text, without the bytes that end them.
pub(crate) fn lines(heap: Global, text: &[u8]) -> Result<Vec<&[u8]>, AllocError> {
    text.strip_suffix(b"\n")
        .unwrap_or(text)
        .split(|byte| *byte == b'\n')
        .collect(heap)
}
