//! Cutting bytes at a byte.
ghost use Rattle.std.specs.Option.{MatchOption};
ghost use Rattle.text.specs.Split.{Cut, Lacks};

/// What stands before the first `stop`, and what stands after it.
pub(crate) fn split_once(bytes: &[u8], stop: u8) -> Option<(&[u8], &[u8])>
    ensures { MatchOption result (Lacks stop bytes.now) (λ p. Cut stop bytes.now p.0.now p.1.now) }
{
    let at = bytes.iter().position(|byte| *byte == stop)?;
    Some((&bytes[..at], &bytes[at + 1..]))
}
