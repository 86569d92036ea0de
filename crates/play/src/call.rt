//! The calls of a history.
ghost use Rattle.std.specs.Prelude.{ℕ, List, ◌∷◌, ◌++◌, IfSome};
ghost use Rattle.play.specs.Call.{Names, Writes};
ghost use Rattle.play.specs.Name.{name_word};
ghost use Rattle.std.specs.Borrow.{Bor};

use crate::name::Name;
use crate::words::{cut, number, numbers};

/// A call on a board.
#[derive(Debug, Clone, Copy, PartialEq, Eq)]
pub(crate) enum Call<'a> {
    /// Loads the job of a text.
    Load { text: &'a [u8] },
    /// Takes the job of a number off.
    Unload { number: u32 },
    /// Writes the sheet of a job into a buffer of some length.
    Sheet { number: u32, length: u32 },
    /// Lets the board run.
    Start,
    /// A job of the board arrives, and takes a branch.
    Arrive { number: u32, branch: u32 },
    /// Asks what an engine runs next.
    Next { engine: u32 },
    /// A tick passes: the engines that are served in it, and those that report that their sub-task is done.
    Tick { served: u16, done: u16 },
    /// Asks how many sub-tasks were late since the start.
    Late,
    /// Stops the board.
    Stop,
}

/// The text of the job with the number that a word writes. The first text is that of the platform.
fn job_text<'a>(texts: &[&'a [u8]], word: &[u8]) -> Option<&'a [u8]>
    ensures { IfSome result (Names texts.now word.now) }
{
    let number = number(word)?;
    if number == 0 {
        return None;
    }
    texts.get(number as usize).copied()
}

/// The call of two numbers that a name and a line's other words write.
fn call_of_two<'a>(name: Name, words: &[u8]) -> Option<Call<'a>>
    ensures { IfSome result (λ call. (texts : List (Bor (List ℕ))) → Writes texts (name_word name ++ 32 ∷ words.now) call) }
{
    let (first, second) = numbers(words)?;
    match name {
        Name::Sheet => Some(Call::Sheet {
            number: first,
            length: second,
        }),
        Name::Arrive => Some(Call::Arrive {
            number: first,
            branch: second,
        }),
        Name::Tick => Some(Call::Tick {
            served: u16::try_from(first).ok()?,
            done: u16::try_from(second).ok()?,
        }),
        _ => None,
    }
}

/// The call that a line writes.
pub(crate) fn read_call<'a>(line: &[u8], texts: &[&'a [u8]]) -> Option<Call<'a>>
    ensures { IfSome result (Writes texts.now line.now) }
{
    let (word, more) = cut(line);
    match (Name::of(word)?, more) {
        (Name::Start, None) => Some(Call::Start),
        (Name::Late, None) => Some(Call::Late),
        (Name::Stop, None) => Some(Call::Stop),
        (Name::Load, Some(word)) => Some(Call::Load {
            text: job_text(texts, word)?,
        }),
        (Name::Unload, Some(word)) => Some(Call::Unload {
            number: number(word)?,
        }),
        (Name::Next, Some(word)) => Some(Call::Next {
            engine: number(word)?,
        }),
        (name, Some(words)) => call_of_two(name, words),
        (_, None) => None,
    }
}
