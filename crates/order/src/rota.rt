//! Engines in turn, from after the one that last took a part.
ghost use Rattle.std.specs.Prelude.{◌≡◌, length};

// It stands here too, since `engine` keeps its highest tag to itself.
/// How many tags there are.
pub const TAGS: usize = 8;

/// By rising number from after the engine that last took a part of the tag; from the first engine for a tag that none took.
#[derive(Debug, Clone, Copy, PartialEq, Eq)]
pub struct Rota {
    pub(crate) last: [Option<usize>; TAGS],
    ghost sized: { length last ≡ 8 },
}
