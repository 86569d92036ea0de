//! What calls answer.
ghost use Rattle.play.specs.Answer.{answer_text};

use board::refusal::Refusal;
use dispatch::candidate::Next;
use engine::roster::ENGINES;
use sheet::sheet::SHEET;
use std::fmt;

/// What a call answers.
#[derive(Debug, Clone, Copy)]
pub(crate) enum Answer {
    /// It is done, and there is nothing to say.
    Done,
    /// The first question that the call fails.
    Refused {
        refusal: Refusal,
    },
    /// The sheet of a job, in the first bytes of a buffer.
    Sheet {
        buffer: [u8; SHEET],
        length: usize,
    },
    /// What an engine runs next.
    Next {
        next: Option<Next>,
    },
    /// How many sub-tasks became late, and what ran on each engine.
    Ticked {
        late: u32,
        ran: [Option<Next>; ENGINES],
    },
    /// How many sub-tasks were late since the start.
    Late {
        total: u64,
    },
    /// The call was not made: one that the board does not take while it runs, or only while it runs.
    NotTaken,
}

/// What ran on each engine.
#[derive(Debug, Clone, Copy)]
struct Ran<'a>(&'a [Option<Next>; ENGINES]);

/// The engines on which something ran, with its job and node, and spaces between.
impl fmt::Display for Ran<'_> {
    fn fmt<W: fmt::Write>(&self, f: &mut fmt::Formatter<W>) -> fmt::Result {
        let mut gap = "";
        for (engine, ran) in self.0.iter().enumerate() {
            if let Some(Next { job, node }) = *ran {
                write!(f, "{gap}{engine}:{job}.{node}")?;
                gap = " ";
            }
        }
        Ok(())
    }
}

/// The bytes of a sheet, each of which is a character.
#[derive(Debug, Clone, Copy)]
struct Characters<'a>(&'a [u8]);

impl fmt::Display for Characters<'_> {
    fn fmt<W: fmt::Write>(&self, f: &mut fmt::Formatter<W>) -> fmt::Result {
        for byte in self.0 {
            f.write_char(char::from(*byte))?;
        }
        Ok(())
    }
}

/// The lines of an answer.
impl fmt::Display for Answer {
    ghost output = { answer_text };

    fn fmt<W: fmt::Write>(&self, f: &mut fmt::Formatter<W>) -> fmt::Result {
        match self {
            Answer::Done => f.write_str("answer=0\n"),
            Answer::Refused { refusal } => write!(f, "answer={refusal}\n"),
            Answer::Sheet { buffer, length } => {
                let sheet = Characters(buffer.get(..*length).unwrap_or(buffer));
                write!(f, "answer=0\nlength={length}\n{sheet}")
            }
            Answer::Next { next: None } => f.write_str("next=-\n"),
            Answer::Next {
                next: Some(Next { job, node }),
            } => write!(f, "next={job},{node}\n"),
            Answer::Ticked { late, ran } => {
                let ran = Ran(ran);
                write!(f, "late={late} ran={ran}\n")
            }
            Answer::Late { total } => write!(f, "late={total}\n"),
            Answer::NotTaken => f.write_str("answer=-\n"),
        }
    }
}
