//! The whole life of a board.
ghost use Rattle.std.specs.Prelude.{◌≡◌, [], map};
ghost use Rattle.life.specs.Lives.{LifeDetermined, Lives};
ghost use Rattle.life.specs.Standing.{Standing, stopped};

use crate::any_board::AnyBoard;
use crate::call::{Call, Entry};
use board::board::Board;
use engine::supply::Supply;
use order::order::EngineOrder;
use slack::rule::SlackRule;

/// Makes the calls of a history on a new board, one after the other, and writes beside each what came of it.
#[tactic(auto, using(crate::proofs::Determining::life_determined))]
pub fn live<P: Supply + Drop, R: SlackRule + Drop, O: EngineOrder + Drop>(
    platform: P,
    rule: R,
    order: O,
    history: &mut [Entry<'_>],
)
    ensures calls { map (λ e. e.call) history.new ≡ map (λ e. e.call) history.old }
    ensures lives { (end : Standing) × Lives (record { tags = P.Roster.tags platform; supply = P.Supply.supply platform; local = R.SlackRule.local rule; listing = O.EngineOrder.listing order }) (stopped [] (O.EngineOrder.listing order)) history.new end }
    ensures determined { LifeDetermined }
{
    let mut standing = AnyBoard::Stopped(Board::new(platform, rule, order));
    for entry in history.iter_mut() {
        entry.answer = match entry.call {
            Call::Start | Call::Stop => {
                let (next, answer) = standing.turned(&entry.call);
                standing = next;
                answer
            }
            _ => standing.call(&entry.call),
        };
        entry.late_total = standing.late_total();
    }
}
