//! Texts one after the other, parted by empty lines.
ghost use Rattle.std.specs.Prelude.{ℕ, ◌<◌, MatchOption};
ghost use Rattle.std.specs.Option.{option_map};
ghost use Rattle.text.specs.Texts.{First, Gap};

/// The first place where two line ends stand side by side.
fn gap(input: &[u8]) -> Option<usize>
    ensures { MatchOption result ((k : ℕ) → Gap input.now k → ⊥) (λ i. Gap input.now i × ((k : ℕ) → k < i → Gap input.now k → ⊥)) }
{
    input
        .windows(2)
        .position(|pair| pair[0] == b'\n' && pair[1] == b'\n')
}

/// The first text, and what stands after the empty line that ends it.
pub fn first_text(input: &[u8]) -> (&[u8], Option<&[u8]>)
    ensures { First input.now result.0.now (option_map (λ x. x.now) result.1) }
{
    if let Some(more) = input.strip_prefix(b"\n") {
        return (&[], Some(more));
    }
    match gap(input) {
        Some(at) => (&input[..at + 1], Some(&input[at + 2..])),
        None => (input, None),
    }
}
