//! What a reader finds wrong with a text.
ghost use Rattle.std.specs.Prelude.{◌≡◌, ◌∷◌, ◌++◌, Some, decimal};
ghost use Rattle.text.specs.Fault.{number_of, place_of};

use std::error::Error;
use std::fmt;

/// The first question that a text fails, with its place.
#[derive(Debug, Clone, Copy, PartialEq, Eq)]
pub enum Fault {
    /// The text is empty, or longer than 4096 bytes.
    Size,
    /// The due line is not there, or something stands after the last one.
    Line { line: u32 },
    /// The value of this line is not well formed.
    Form { line: u32 },
    /// The value of this line is out of range.
    Range { line: u32 },
    /// This fork has no edge in, or fewer than two or more than three out.
    Fork { node: u32 },
    /// There are more than four alternatives or more than four conditionals.
    Forks,
}

impl Fault {
    /// The number of the question.
    pub fn number(self) -> u32
        ensures { result ≡ number_of self }
    {
        match self {
            Fault::Size => 1,
            Fault::Line { .. } => 2,
            Fault::Form { .. } => 3,
            Fault::Range { .. } => 4,
            Fault::Fork { .. } => 5,
            Fault::Forks => 6,
        }
    }

    /// Where: a line from 1, a node from 0, or 0.
    pub fn place(self) -> u32
        ensures { result ≡ place_of self }
    {
        match self {
            Fault::Line { line } | Fault::Form { line } | Fault::Range { line } => line,
            Fault::Fork { node } => node,
            Fault::Size | Fault::Forks => 0,
        }
    }
}

/// The number of the question, a comma, and the place.
impl fmt::Display for Fault {
    ghost output = { λ f. Some (decimal (number_of f) ++ 44 ∷ decimal (place_of f)) };

    fn fmt<W: fmt::Write>(&self, f: &mut fmt::Formatter<W>) -> fmt::Result {
        let (number, place) = (self.number(), self.place());
        write!(f, "{number},{place}")
    }
}

impl Error for Fault {}
