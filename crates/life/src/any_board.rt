//! A board between two calls.
ghost use Rattle.std.specs.Prelude.{◌≡◌, length, false, true, Some, None, List};
ghost use Rattle.board.specs.Placing.{Rules};
ghost use Rattle.board.specs.Residents.{jobs};
ghost use Rattle.dispatch.specs.Kept.{kept};
ghost use Rattle.life.specs.Answered.{Answered, ticked};
ghost use Rattle.life.specs.declared.call.Call.TheVariants.{Tick};
ghost use Rattle.life.specs.InStep.{InStep, board_of, late_of, stands, turns};
ghost use Rattle.life.specs.Standing.{Listing, running, state_of, stopped};
ghost use Rattle.running.specs.View.{view};
ghost use Rattle.runs.specs.Events.{Event};

use crate::call::{Answer, Call};
use board::board::Board;
use dispatch::candidate::Next;
use engine::roster::{ENGINES, Roster};
use engine::supply::Supply;
use order::order::EngineOrder;
use running::running::Running;
use slack::rule::SlackRule;

/// A board: it does not run, or it runs.
#[derive(Drop)]
pub(crate) enum AnyBoard<P, R, O> {
    Stopped(Board<P, R, O>),
    Running(Running<P, R, O>),
}

/// Makes a call on a board that does not run, but does not start it.
fn call_stopped<P: Supply, R: SlackRule, O: EngineOrder>(
    board: &mut Board<P, R, O>,
    call: &Call<'_>,
) -> Answer
    requires { turns call.now ≡ false }
    ensures answered { (l0 : Listing) → Answered (record { tags = P.Roster.tags board.old.platform; supply = P.Supply.supply board.old.platform; local = R.SlackRule.local board.old.rule; listing = l0 }) (stopped (jobs board.old.residents) (O.EngineOrder.listing board.old.order)) call.now result (stopped (jobs board.new.residents) (O.EngineOrder.listing board.new.order)) }
    ensures kept { (board.new.platform ≡ board.old.platform) × (board.new.rule ≡ board.old.rule) }
{
    match *call {
        Call::Load { text } => match board.load(text) {
            Ok(number) => Answer::Loaded { number },
            Err(refusal) => Answer::Refused { refusal },
        },
        Call::Unload { number } => match board.unload(number) {
            Ok(()) => Answer::Done,
            Err(refusal) => Answer::Refused { refusal },
        },
        _ => Answer::NotTaken,
    }
}

/// Makes a tick on a board that runs.
fn tick<P: Roster, R, O>(board: &mut Running<P, R, O>, served: u16, done: u16) -> Answer
    ensures answered { (rules : Rules) (l : Listing) (es : List Event) → rules.tags ≡ P.Roster.tags board.old.board.platform → view board.old ≡ kept (state_of (jobs board.old.board.residents) es) → (fs : List Event) × Answered rules (running (jobs board.old.board.residents) l es) (Tick served done) result (running (jobs board.old.board.residents) l fs) × (view board.new ≡ kept (state_of (jobs board.old.board.residents) fs)) }
    ensures kept { board.new.board ≡ board.old.board }
{
    let mut ran = [None; ENGINES];
    match board.tick(served, done, &mut ran) {
        Ok(late) => Answer::Ticked { ran, late },
        Err(refusal) => Answer::Refused { refusal },
    }
}

/// Makes a call on a board that runs, but does not stop it.
fn call_running<P: Roster, R, O>(board: &mut Running<P, R, O>, call: &Call<'_>) -> Answer
    requires { turns call.now ≡ false }
    ensures answered { (rules : Rules) (l : Listing) (es : List Event) → rules.tags ≡ P.Roster.tags board.old.board.platform → view board.old ≡ kept (state_of (jobs board.old.board.residents) es) → (fs : List Event) × Answered rules (running (jobs board.old.board.residents) l es) call.now result (running (jobs board.old.board.residents) l fs) × (view board.new ≡ kept (state_of (jobs board.old.board.residents) fs)) }
    ensures kept { board.new.board ≡ board.old.board }
{
    match *call {
        Call::Arrive { number, branch } => match board.arrive(number, branch) {
            Ok(()) => Answer::Done,
            Err(refusal) => Answer::Refused { refusal },
        },
        Call::Tick { served, done } => tick(board, served, done),
        _ => Answer::NotTaken,
    }
}

impl<P: Supply, R: SlackRule, O: EngineOrder> AnyBoard<P, R, O> {
    /// Makes a call that neither starts nor stops a board.
    pub(crate) fn call(&mut self, call: &Call<'_>) -> Answer
        requires { turns call.now ≡ false }
        ensures answered { (l0 : Listing) (es : List Event) → InStep self.old es → (fs : List Event) × Answered (record { tags = P.Roster.tags (board_of self.old).platform; supply = P.Supply.supply (board_of self.old).platform; local = R.SlackRule.local (board_of self.old).rule; listing = l0 }) (stands O.EngineOrder.listing self.old es) call.now result (stands O.EngineOrder.listing self.new fs) × InStep self.new fs }
        ensures kept { ((board_of self.new).platform ≡ (board_of self.old).platform) × ((board_of self.new).rule ≡ (board_of self.old).rule) }
    {
        match self {
            AnyBoard::Stopped(board) => call_stopped(board, call),
            AnyBoard::Running(board) => call_running(board, call),
        }
    }

    /// Starts or stops the board, as the call says.
    pub(crate) fn turned(self, call: &Call<'_>) -> (AnyBoard<P, R, O>, Answer)
        requires { turns call.now ≡ true }
        ensures answered { (rules : Rules) (es : List Event) → InStep self es → (fs : List Event) × Answered rules (stands O.EngineOrder.listing self es) call.now result.1 (stands O.EngineOrder.listing result.0 fs) × InStep result.0 fs }
        ensures kept { board_of result.0 ≡ board_of self }
    {
        match self {
            AnyBoard::Stopped(board) => match *call {
                Call::Start => (AnyBoard::Running(Running::start(board)), Answer::Done),
                _ => (AnyBoard::Stopped(board), Answer::NotTaken),
            },
            AnyBoard::Running(board) => match *call {
                Call::Stop => (AnyBoard::Stopped(board.stop()), Answer::Done),
                _ => (AnyBoard::Running(board), Answer::NotTaken),
            },
        }
    }

    /// The late total, if the board runs.
    pub(crate) fn late_total(&self) -> Option<u64>
        ensures { result ≡ late_of self.now }
    {
        match self {
            AnyBoard::Stopped(_) => None,
            AnyBoard::Running(board) => Some(board.late_total()),
        }
    }
}
