//! A stretch of numbers of ticks in which a claim asks the same.
ghost use Rattle.std.specs.Prelude.{◌≡◌, ◌≤◌, ◌↔◌, IsTrue};
ghost use Rattle.claim.specs.Plateau.{higher};

/// The most that falls due in any number of ticks from `since` to `until`.
#[derive(Debug, Clone, Copy, PartialEq, Eq)]
pub struct Plateau {
    pub most: u64,
    pub since: u32,
    pub until: u32,
}

impl Plateau {
    /// A plateau over no number of ticks, so that it says nothing.
    pub const NOWHERE: Plateau = Plateau {
        most: 0,
        since: 1,
        until: 0,
    };

    /// Whether it speaks of so many ticks.
    pub fn spans(&self, ticks: u32) -> bool
        ensures { IsTrue result ↔ (self.now.since ≤ ticks × ticks ≤ self.now.until) }
    {
        self.since <= ticks && ticks <= self.until
    }

    /// The one that is higher, and of two as high the one that begins earlier.
    pub(crate) fn or_higher(self, other: Plateau) -> Plateau
        ensures { result ≡ higher self other }
    {
        if self.most < other.most || self.most == other.most && other.since < self.since {
            other
        } else {
            self
        }
    }
}
