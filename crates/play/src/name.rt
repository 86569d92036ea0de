//! The names of calls.
ghost use Rattle.std.specs.Prelude.{◌≡◌, MatchOption, ◌≢◌};
ghost use Rattle.play.specs.declared.name.Name.{Name};
ghost use Rattle.play.specs.Name.{name_word};

/// The name of a call.
#[derive(Debug, Clone, Copy, PartialEq, Eq)]
pub(crate) enum Name {
    Load,
    Unload,
    Sheet,
    Start,
    Arrive,
    Next,
    Tick,
    Late,
    Stop,
}

/// All names.
const NAMES: [Name; 9] = [
    Name::Load,
    Name::Unload,
    Name::Sheet,
    Name::Start,
    Name::Arrive,
    Name::Next,
    Name::Tick,
    Name::Late,
    Name::Stop,
];

impl Name {
    /// Its word.
    fn word(self) -> &'static [u8]
        ensures { result.now ≡ name_word self }
    {
        match self {
            Name::Load => b"load",
            Name::Unload => b"unload",
            Name::Sheet => b"sheet",
            Name::Start => b"start",
            Name::Arrive => b"arrive",
            Name::Next => b"next",
            Name::Tick => b"tick",
            Name::Late => b"late",
            Name::Stop => b"stop",
        }
    }

    /// The name that is written as this word.
    pub(crate) fn of(word: &[u8]) -> Option<Name>
        ensures { MatchOption result ((n : Name) → word.now ≢ name_word n) (λ n. word.now ≡ name_word n) }
    {
        NAMES.iter().copied().find(|name| name.word() == word)
    }
}
