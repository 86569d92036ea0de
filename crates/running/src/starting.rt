//! Starting a board.
ghost use Rattle.std.specs.Prelude.{◌≡◌, ◌≤◌, length, map};
ghost use Rattle.board.specs.Residents.{jobs};
ghost use Rattle.few.specs.Few.{items};
ghost use Rattle.resident.specs.Resident.{number_of};
ghost use Rattle.running.specs.View.{view};
ghost use Rattle.runs.specs.Events.{start};
ghost use Rattle.seated.specs.Jobs.{jobs_of};

use crate::running::Running;
use board::board::Board;
use dispatch::table::{SLOTS, Table};
use few::few::Few;
use resident::resident::Resident;

/// The numbers of the jobs.
fn numbers(residents: &[Resident]) -> Few<u32, SLOTS>
    requires { length residents.now ≤ 16 }
    ensures { items result ≡ map number_of residents.now }
{
    let mut numbers = Few::new(0);
    for resident in residents {
        numbers.push(resident.number()).unwrap();
    }
    numbers
}

impl<P, R, O> Running<P, R, O> {
    /// Starts the board: it runs from the clock 0, before any arrival.
    pub fn start(board: Board<P, R, O>) -> Running<P, R, O>
        ensures begins { view result ≡ start (jobs_of (jobs board.residents)) }
        ensures board { result.board ≡ board }
    {
        let table = Table::start(&numbers(board.residents()));
        Running { board, table }
    }
}
