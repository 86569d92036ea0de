//! What is left of a text.
ghost use Rattle.std.specs.Prelude.{◌+◌, ◌≤◌, length};

/// The most bytes that a text has.
pub(crate) const TEXT_BYTES: usize = 4096;

/// What is left of a text, and the number of the last line taken from it.
#[derive(Drop)]
pub(crate) struct Lines<'a> {
    pub(crate) rest: &'a [u8],
    pub(crate) number: u32,
    ghost room: { number + length rest.now ≤ 4096 },
}
