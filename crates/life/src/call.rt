//! Calls on a board, and what comes of them.

use board::refusal::Refusal;
use dispatch::candidate::Next;
use engine::roster::ENGINES;

/// A call on a board.
#[derive(Debug, Clone, Copy, PartialEq, Eq)]
pub enum Call<'a> {
    /// Loads the job of a text.
    Load { text: &'a [u8] },
    /// Takes the job of a number off.
    Unload { number: u32 },
    /// Lets the board run.
    Start,
    /// A job of the board arrives, and takes a branch.
    Arrive { number: u32, branch: u32 },
    /// A tick passes: the engines that are served in it, and those that report that their sub-task is done.
    Tick { served: u16, done: u16 },
    /// Stops the board.
    Stop,
}

/// What a call answers.
#[derive(Debug, Clone, Copy, PartialEq, Eq)]
pub enum Answer {
    /// The job of the number is loaded.
    Loaded {
        number: u32,
    },
    /// It is done, and there is nothing to say.
    Done,
    /// What ran on each engine, and how many sub-tasks became late.
    Ticked {
        ran: [Option<Next>; ENGINES],
        late: u32,
    },
    /// The first question that the call fails.
    Refused {
        refusal: Refusal,
    },
    /// The call was not made: one that the board does not take while it runs, or only while it runs.
    NotTaken,
}

/// A call of a history, and what came of it: its answer, and the late total of the board after it, if it runs then.
#[derive(Debug, Clone, Copy, PartialEq, Eq)]
pub struct Entry<'a> {
    pub call: Call<'a>,
    pub answer: Answer,
    pub late_total: Option<u64>,
}
