//! The keys of lines.
ghost use Rattle.std.specs.Prelude.{◌≡◌, ℕ, List, ◌++◌, MatchOption, ◌≢◌};
ghost use Rattle.text.specs.Key.{key_bytes, sort_of};

/// The key of a line.
#[derive(Debug, Clone, Copy, PartialEq, Eq)]
pub enum Key {
    Job,
    Period,
    /// Of a job with this period.
    Deadline { period: u32 },
    Nodes,
    Kind,
    Tag,
    Ticks,
    /// Of this node.
    After { node: usize },
    Engines,
    Marks,
}

/// What the value of a line is to be.
// A sort and no closure, since form and meaning of a value are defined by it.
#[derive(Debug, Clone, Copy, PartialEq, Eq)]
pub enum Sort {
    /// A number of at most nine digits.
    Number,
    /// The kind of a node.
    Kind,
    /// Rising numbers with commas between, or a dash.
    List,
    /// Zeros and ones, one or more.
    Marks,
}

impl Key {
    /// What its value is to be.
    pub fn sort(self) -> Sort
        ensures { result ≡ sort_of self }
    {
        match self {
            Key::Kind => Sort::Kind,
            Key::After { .. } => Sort::List,
            Key::Marks => Sort::Marks,
            Key::Job
            | Key::Period
            | Key::Deadline { .. }
            | Key::Nodes
            | Key::Tag
            | Key::Ticks
            | Key::Engines => Sort::Number,
        }
    }

    /// The key with the equals sign after it.
    fn bytes(self) -> &'static [u8]
        ensures { result.now ≡ key_bytes self }
    {
        match self {
            Key::Job => b"job=",
            Key::Period => b"period=",
            Key::Deadline { .. } => b"deadline=",
            Key::Nodes => b"nodes=",
            Key::Kind => b"kind=",
            Key::Tag => b"tag=",
            Key::Ticks => b"ticks=",
            Key::After { .. } => b"after=",
            Key::Engines => b"engines=",
            Key::Marks => b"marks=",
        }
    }

    /// The value of a line that begins with this key and an equals sign.
    pub fn value_of(self, line: &[u8]) -> Option<&[u8]>
        ensures { MatchOption result ((value : List ℕ) → line.now ≢ key_bytes self ++ value) (λ value. line.now ≡ key_bytes self ++ value.now) }
    {
        line.strip_prefix(self.bytes())
    }
}
