//! The engines of a platform and their tags.
ghost use Rattle.std.specs.Prelude.{◌≡◌, ℕ, List, length};
ghost use Rattle.engine.specs.Roster.{Rostered, tag_of};

/// The most engines that a platform has.
pub const ENGINES: usize = 16;

/// Engines numbered from 0, each with a tag.
pub trait Roster {
    /// The tags of the engines, in their order.
    ghost tags: { Self → List ℕ };

    /// There are 1 to 16 engines, with tags from 0 to 7.
    ghost rostered: { (platform : Self) → Rostered (tags platform) };

    /// How many engines there are.
    fn engines(&self) -> usize
        ensures { result ≡ length (tags self.now) };

    /// The tag of an engine; nothing where there is no such engine.
    fn tag(&self, engine: usize) -> Option<u32>
        ensures { result ≡ tag_of (tags self.now) engine };
}
