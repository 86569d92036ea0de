//! What the residents of a board ask of its engines.
ghost use Rattle.std.specs.Prelude.{◌≡◌, ◌≤◌, ◌∷◌, map, length, sum_by};
ghost use Rattle.board.specs.Asked.{asked_by, claims_on, load_of, load_on, loads};
ghost use Rattle.board.specs.Residents.{jobs};
ghost use Rattle.few.specs.Few.{items};
ghost use Rattle.fit.specs.Fits.{in_cycle};

use crate::residents::{RESIDENTS, Residents};
use claim::claim::Claim;
use engine::roster::ENGINES;
use few::few::Few;
use resident::resident::{PARTS, Resident};
use std::array;
use task::ranges::BELT_CYCLE;

/// The most claims on an engine: those of all parts of all residents, and that of one more.
pub(crate) const CLAIMS: usize = RESIDENTS * PARTS + 1;

/// A claim, and then those of the residents on an engine.
pub(crate) fn claims_on<'a>(
    claim: &'a Claim,
    residents: &'a [Resident],
    engine: usize,
) -> Few<&'a Claim, CLAIMS>
    requires { length residents.now ≤ 16 }
    ensures { map (λ c. c.now) (items result) ≡ claim.now ∷ claims_on residents.now engine }
{
    let mut claims = Few::new(claim);
    claims.push(claim).unwrap();
    for resident in residents {
        for seat in resident.seats.iter() {
            if seat.engine == engine {
                claims.push(&seat.claim).unwrap();
            }
        }
    }
    claims
}

/// The ticks that the whole arrivals of a belt cycle ask.
fn in_cycle(claim: &Claim) -> u64
    ensures { result ≡ in_cycle claim.now }
{
    u64::from(claim.whole) * u64::from(BELT_CYCLE / claim.period)
}

/// The ticks in a belt cycle of a resident's parts on an engine.
fn load_by(resident: &Resident, engine: usize) -> u64
    ensures load { result ≡ sum_by load_of (asked_by resident.now engine) }
    ensures light { result ≤ 115200 }
{
    resident
        .seats
        .iter()
        .filter(|seat| seat.engine == engine)
        .map(|seat| in_cycle(&seat.claim))
        .sum()
}

/// The load of an engine.
fn load_on(residents: &Residents, engine: usize) -> u32
    ensures { result ≡ load_on (jobs residents.now) engine }
{
    let load: u64 = residents
        .as_slice()
        .iter()
        .map(|resident| load_by(resident, engine))
        .sum();
    // A job that sits asks for no more than a belt cycle on an engine, so the sum is far below the limit.
    load as u32
}

/// The loads of the engines.
pub(crate) fn loads(residents: &Residents) -> [u32; ENGINES]
    ensures { result ≡ loads (jobs residents.now) }
{
    array::from_fn(|engine| load_on(residents, engine))
}
