//! The words of a line.
ghost use Rattle.std.specs.Prelude.{◌≡◌, ◌∷◌, ◌++◌, decimal, IfSome, MatchOption};
ghost use Rattle.play.specs.Words.{Parted};
ghost use Rattle.std.specs.Option.{option_map};
ghost use Rattle.text.specs.declared.key.Sort.{Sort};
ghost use Rattle.text.specs.Value.{Form, Numeral};

use text::key::Sort;
use text::value::Value;

/// The first word of a line, and what stands after the space behind it.
pub(crate) fn cut(line: &[u8]) -> (&[u8], Option<&[u8]>)
    ensures { Parted line.now result.0.now (option_map (λ x. x.now) result.1) }
{
    match line.iter().position(|byte| *byte == b' ') {
        Some(at) => (&line[..at], Some(&line[at + 1..])),
        None => (line, None),
    }
}

/// The number that a word writes.
pub(crate) fn number(word: &[u8]) -> Option<u32>
    ensures { MatchOption result (Form Sort.Number word.now → ⊥) (λ n. Numeral n word.now) }
{
    match Sort::Number.read(word)? {
        Value::Number(number) => Some(number),
        Value::Kind(_) | Value::List(_) | Value::Marks(_) => None,
    }
}

/// The two numbers that two words write.
pub(crate) fn numbers(words: &[u8]) -> Option<(u32, u32)>
    ensures { IfSome result (λ p. words.now ≡ decimal p.0 ++ 32 ∷ decimal p.1) }
{
    let (first, second) = cut(words);
    Some((number(first)?, number(second?)?))
}
