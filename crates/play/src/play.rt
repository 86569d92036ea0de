//! Playing a history on a board.

use crate::any_board::AnyBoard;
use crate::call::{Call, read_call};
use crate::setup::{Order, Platform, Setup, Slack, read_setup};
use crate::texts::{lines, texts};
use crate::whole::read_whole;
use engine::supply::Supply;
use order::fullest::Fullest;
use order::order::EngineOrder;
use order::rota::Rota;
use slack::even::Even;
use slack::proportional::Proportional;
use slack::rule::SlackRule;
use std::alloc::{AllocError, Global};
use text::calendar_text::read_calendar;
use text::texts::first_text;

/// The lines of a history, the first of which names the board, and its texts, the first of which is that of the platform.
#[derive(Debug, Clone, Copy)]
struct History<'a, 'b> {
    lines: &'a [&'b [u8]],
    texts: &'a [&'b [u8]],
}

/// The answers to the calls of a history, on a board that nothing was called on yet.
fn answers<P: Supply + Drop, R: SlackRule + Drop, O: EngineOrder + Drop>(
    heap: Global,
    board: AnyBoard<P, R, O>,
    history: History<'_, '_>,
) -> Result<String, AllocError> {
    let mut board = board;
    let mut answers = String::new(heap);
    for (index, line) in history.lines.iter().enumerate().skip(1) {
        let Some(call) = read_call(line, history.texts) else {
            let number = index + 1;
            write!(answers, "line {number} is no call\n")?;
            return Ok(answers);
        };
        let answer = match call {
            Call::Start => {
                let (started, answer) = board.started(heap)?;
                board = started;
                answer
            }
            Call::Stop => {
                let (stopped, answer) = board.stopped(heap)?;
                board = stopped;
                answer
            }
            _ => board.call(&call),
        };
        write!(answers, "{answer}")?;
    }
    Ok(answers)
}

/// The answers to the calls of a history, on a board with this platform and with the rules that are named.
fn answers_on<P: Supply + Drop>(
    heap: Global,
    platform: P,
    setup: Setup,
    history: History<'_, '_>,
) -> Result<String, AllocError> {
    match (setup.slack, setup.order) {
        (Slack::Even, Order::Fullest) => {
            answers(heap, AnyBoard::new(heap, platform, Even, Fullest)?, history)
        }
        (Slack::Even, Order::Rota) => {
            answers(
                heap,
                AnyBoard::new(heap, platform, Even, Rota::new())?,
                history,
            )
        }
        (Slack::Proportional, Order::Fullest) => {
            answers(
                heap,
                AnyBoard::new(heap, platform, Proportional, Fullest)?,
                history,
            )
        }
        (Slack::Proportional, Order::Rota) => {
            answers(
                heap,
                AnyBoard::new(heap, platform, Proportional, Rota::new())?,
                history,
            )
        }
    }
}

/// The answers to the calls of a history, on the board that is named.
fn answers_by(heap: Global, setup: Setup, history: History<'_, '_>) -> Result<String, AllocError> {
    let platform = history.texts.first().copied().unwrap_or(b"");
    match setup.platform {
        Platform::Calendar => match read_calendar(platform) {
            Ok(platform) => answers_on(heap, platform, setup, history),
            Err(fault) => format!(in heap; "answer={fault}\n"),
        },
        Platform::Whole => match read_whole(platform) {
            Ok(platform) => answers_on(heap, platform, setup, history),
            Err(fault) => format!(in heap; "answer={fault}\n"),
        },
    }
}

/// What is printed of an input: a history, an empty line, a platform text and job texts.
pub(crate) fn play(heap: Global, input: &[u8]) -> Result<String, AllocError> {
    let (history, papers) = first_text(input);
    let lines = lines(heap, history)?;
    let texts = texts(heap, papers)?;
    match lines.first().and_then(|line| read_setup(line)) {
        Some(setup) => {
            let history = History {
                lines: &lines,
                texts: &texts,
            };
            answers_by(heap, setup, history)
        }
        None => format!(in heap; "line 1 is no board\n"),
    }
}
