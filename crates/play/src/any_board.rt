//! A board between two calls.
ghost use Rattle.std.specs.Prelude.{◌≡◌, [], false, min, not, true, IfErr, IfOk, OnOk};
ghost use Rattle.board.specs.Residents.{jobs};
ghost use Rattle.play.specs.Answer.{is_made};
ghost use Rattle.play.specs.declared.answer.Answer.TheVariants.{Done, Refused, Sheet};
ghost use Rattle.play.specs.Standing.{board_of, is_running, takes};

use crate::answer::Answer;
use crate::call::Call;
use board::board::Board;
use board::refusal::Refusal;
use engine::roster::{ENGINES, Roster};
use engine::supply::Supply;
use order::order::EngineOrder;
use running::running::Running;
use sheet::sheet::SHEET;
use slack::rule::SlackRule;
use std::alloc::{AllocError, Global};

// Boxed, since a board is large: it would take its place on the stack again for each move.
/// A board: it does not run, or it runs.
#[derive(Drop)]
pub(crate) enum AnyBoard<P, R, O> {
    Stopped(Box<Board<P, R, O>>),
    Running(Box<Running<P, R, O>>),
}

/// The answer where nothing is said of a call that was granted.
fn done<T: Copy>(answer: Result<T, Refusal>) -> Answer
    ensures granted { OnOk answer (result ≡ Done) }
    ensures refused { IfErr answer (λ f. result ≡ Refused f) }
{
    match answer {
        Ok(_) => Answer::Done,
        Err(refusal) => Answer::Refused { refusal },
    }
}

/// The answer with a sheet that was written into a buffer.
fn written(buffer: [u8; SHEET], answer: Result<usize, Refusal>) -> Answer
    ensures granted { IfOk answer (λ n. result ≡ Sheet buffer n) }
    ensures refused { IfErr answer (λ f. result ≡ Refused f) }
{
    match answer {
        Ok(length) => Answer::Sheet { buffer, length },
        Err(refusal) => Answer::Refused { refusal },
    }
}

/// How long a buffer is made. No sheet is longer than the longest one, so a buffer beyond that is as good.
fn buffer_length(length: u32) -> usize
    ensures { result ≡ min length SHEET }
{
    (length as usize).min(SHEET)
}

/// Makes a call on a board that does not run, but does not start it.
fn call_stopped<P: Supply, R: SlackRule, O: EngineOrder>(
    board: &mut Board<P, R, O>,
    call: &Call<'_>,
) -> Answer
    ensures made { is_made result ≡ takes false call.now }
    ensures not_made { takes false call.now ≡ false → board.new ≡ board.old }
{
    match *call {
        Call::Load { text } => done(board.load(text)),
        Call::Unload { number } => done(board.unload(number)),
        Call::Sheet { number, length } => {
            let mut buffer = [0; SHEET];
            let answer = board.sheet(number, &mut buffer[..buffer_length(length)]);
            written(buffer, answer)
        }
        _ => Answer::NotTaken,
    }
}

/// Makes a tick on a board that runs.
fn tick<P: Roster, R, O>(board: &mut Running<P, R, O>, served: u16, done: u16) -> Answer
    ensures { is_made result ≡ true }
{
    let mut ran = [None; ENGINES];
    match board.tick(served, done, &mut ran) {
        Ok(late) => Answer::Ticked { late, ran },
        Err(refusal) => Answer::Refused { refusal },
    }
}

/// Makes a call on a board that runs, but does not stop it.
fn call_running<P: Roster, R, O>(board: &mut Running<P, R, O>, call: &Call<'_>) -> Answer
    ensures made { is_made result ≡ takes true call.now }
    ensures not_made { takes true call.now ≡ false → board.new ≡ board.old }
{
    match *call {
        Call::Arrive { number, branch } => done(board.arrive(number, branch)),
        Call::Next { engine } => Answer::Next {
            next: board.next(engine as usize),
        },
        Call::Tick { served, done } => tick(board, served, done),
        Call::Late => Answer::Late {
            total: board.late_total(),
        },
        Call::Sheet { number, length } => {
            let mut buffer = [0; SHEET];
            let answer = board.sheet(number, &mut buffer[..buffer_length(length)]);
            written(buffer, answer)
        }
        _ => Answer::NotTaken,
    }
}

impl<P: Supply + Drop, R: SlackRule + Drop, O: EngineOrder + Drop> AnyBoard<P, R, O> {
    /// A board without jobs, which does not run.
    pub(crate) fn new(
        heap: Global,
        platform: P,
        rule: R,
        order: O,
    ) -> Result<AnyBoard<P, R, O>, AllocError>
        ensures state { IfOk result (λ b. is_running b ≡ false) }
        ensures made { IfOk result (λ b. ((board_of b).platform ≡ platform) × ((board_of b).rule ≡ rule) × ((board_of b).order ≡ order)) }
        ensures none { IfOk result (λ b. jobs (board_of b).residents ≡ []) }
    {
        let board = Box::new(heap, Board::new(platform, rule, order))?;
        Ok(AnyBoard::Stopped(board))
    }

    /// Makes a call that neither starts nor stops a board.
    pub(crate) fn call(&mut self, call: &Call<'_>) -> Answer
        ensures made { is_made result ≡ takes (is_running self.old) call.now }
        ensures not_made { takes (is_running self.old) call.now ≡ false → self.new ≡ self.old }
        ensures state { is_running self.new ≡ is_running self.old }
    {
        match self {
            AnyBoard::Stopped(board) => call_stopped(board, call),
            AnyBoard::Running(board) => call_running(board, call),
        }
    }

    /// The board started, if it does not run.
    pub(crate) fn started(self, heap: Global) -> Result<(AnyBoard<P, R, O>, Answer), AllocError>
        ensures board { IfOk result (λ p. board_of p.0 ≡ board_of self) }
        ensures made { IfOk result (λ p. is_made p.1 ≡ not (is_running self)) }
        ensures runs { IfOk result (λ p. is_running p.0 ≡ true) }
    {
        match self {
            AnyBoard::Stopped(board) => {
                let running = Box::new(heap, Running::start(Box::into_inner(board)))?;
                Ok((AnyBoard::Running(running), Answer::Done))
            }
            AnyBoard::Running(_) => Ok((self, Answer::NotTaken)),
        }
    }

    /// The board stopped, if it runs.
    pub(crate) fn stopped(self, heap: Global) -> Result<(AnyBoard<P, R, O>, Answer), AllocError>
        ensures board { IfOk result (λ p. board_of p.0 ≡ board_of self) }
        ensures made { IfOk result (λ p. is_made p.1 ≡ is_running self) }
        ensures stops { IfOk result (λ p. is_running p.0 ≡ false) }
    {
        match self {
            AnyBoard::Running(running) => {
                let board = Box::new(heap, Box::into_inner(running).stop())?;
                Ok((AnyBoard::Stopped(board), Answer::Done))
            }
            AnyBoard::Stopped(_) => Ok((self, Answer::NotTaken)),
        }
    }
}
