//! Why a call is refused.
ghost use Rattle.std.specs.Prelude.{◌≡◌, Some};
ghost use Rattle.board.specs.Refusal.{refusal_number, refusal_place, refusal_text};
ghost use Rattle.board.specs.declared.refusal.Refusal.TheVariants.{Fault as FaultyText};

use std::error::Error;
use std::fmt;
use text::fault::Fault;

/// The first question that a call fails.
#[derive(Debug, Clone, Copy, PartialEq, Eq)]
pub enum Refusal {
    /// The text is at fault.
    Fault(Fault),
    /// The number of the job belongs to a job of the board.
    NumberTaken,
    /// The board has as many jobs as it can.
    BoardFull,
    /// No choice of the job is possible.
    NoChoice,
    /// No possible choice of the job can be placed.
    NoPlacement,
    /// No job of the board has the number.
    NotResident,
    /// The job has no branch with the number.
    NoBranch,
    /// The job's last arrival is less than its period ago.
    TooSoon,
    /// A mask names an engine that does not exist.
    NoEngine,
    /// The clock is at its last.
    LastClock,
    /// The buffer is shorter than the sheet.
    ShortBuffer,
}

impl Refusal {
    /// The number of the question.
    pub fn number(self) -> u32
        ensures { result ≡ refusal_number self }
    {
        match self {
            Refusal::Fault(fault) => fault.number(),
            Refusal::NumberTaken => 7,
            Refusal::BoardFull => 8,
            Refusal::NoChoice => 9,
            Refusal::NoPlacement => 10,
            Refusal::NotResident => 11,
            Refusal::NoBranch => 12,
            Refusal::TooSoon => 13,
            Refusal::NoEngine => 14,
            Refusal::LastClock => 15,
            Refusal::ShortBuffer => 16,
        }
    }

    /// Where: a line from 1, a node from 0, or 0.
    pub fn place(self) -> u32
        ensures { result ≡ refusal_place self }
    {
        match self {
            Refusal::Fault(fault) => fault.place(),
            _ => 0,
        }
    }
}

impl From<Fault> for Refusal {
    ghost from_gives = { λ f r. r ≡ FaultyText f };

    fn from(fault: Fault) -> Refusal {
        Refusal::Fault(fault)
    }
}

/// The number of the question, a comma, and the place.
impl fmt::Display for Refusal {
    ghost output = { λ r. Some (refusal_text r) };

    fn fmt<W: fmt::Write>(&self, f: &mut fmt::Formatter<W>) -> fmt::Result {
        let (number, place) = (self.number(), self.place());
        write!(f, "{number},{place}")
    }
}

impl Error for Refusal {}
