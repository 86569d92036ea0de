//! The calls of a rehearsal.
ghost use Rattle.std.specs.Prelude.{◌≡◌, ◌<◌, ◌≤◌, ◌++◌, IfOk, OnOk, filter, map};
ghost use Rattle.few.specs.Few.{items};
ghost use Rattle.engine.specs.Calendar.{supply_of};
ghost use Rattle.rehearsal.specs.Below.{below};
ghost use Rattle.rehearsal.specs.Calls.{arrival, calls_at, calls_of, is_due, is_needed, least_tick, load, served_in, unload};
ghost use Rattle.std.specs.List.{flat_map};

use engine::calendar::Calendar;
use engine::roster::ENGINES;
use engine::supply::Supply;
use life::call::{Answer, Call, Entry};
use std::alloc::{AllocError, Global};
use task::job::Job;

/// The ticks of a belt cycle.
const BELT_CYCLE: u32 = 14_400;

/// The arrival of the job at a clock: its branch numbers take turns.
#[tactic(auto, using(plan::proofs::Branches::branches_some))]
fn arrival<'a>(job: &Job, clock: u32) -> Call<'a>
    ensures { result ≡ arrival clock job.now }
{
    Call::Arrive {
        number: job.number,
        branch: clock / job.period % job.branches(),
    }
}

/// Whether a platform that serves as little as it may serves the engine in the tick after a clock.
fn is_needed(platform: &Calendar, engine: usize, clock: u32) -> bool
    requires { clock < 14400 }
    ensures { result ≡ is_needed (supply_of (items platform.now.courses)) clock engine }
{
    platform.supply(engine, clock + 1) != platform.supply(engine, clock)
}

/// The tick after a clock, on a platform that serves as little as it may.
fn least_tick<'a>(platform: &Calendar, clock: u32) -> Call<'a>
    requires { clock < 14400 }
    ensures { result ≡ least_tick (supply_of (items platform.now.courses)) clock }
{
    let mut served = 0;
    for engine in 0..ENGINES {
        if is_needed(platform, engine, clock) {
            served |= 1 << engine;
        }
    }
    Call::Tick { served, done: 0 }
}

/// Adds the calls that load the texts.
fn add_loads<'a>(calls: &mut Vec<Call<'a>>, texts: &[&'a [u8]]) -> Result<(), AllocError>
    ensures { OnOk result (calls.new.items ≡ calls.old.items ++ map load texts.now) }
{
    calls.extend(texts.iter().map(|text| Call::Load { text }))
}

/// Adds the arrivals at a clock, and the tick after it.
fn add_at(
    calls: &mut Vec<Call<'_>>,
    platform: &Calendar,
    jobs: &[Job],
    clock: u32,
) -> Result<(), AllocError>
    requires { clock < 14400 }
    ensures { OnOk result (calls.new.items ≡ calls.old.items ++ calls_at (supply_of (items platform.now.courses)) jobs.now clock) }
{
    for job in jobs {
        if clock % job.period == 0 {
            calls.push(arrival(job, clock))?;
        }
    }
    calls.push(least_tick(platform, clock))?;
    Ok(())
}

/// Adds the arrivals and ticks of a belt cycle.
fn add_cycle(calls: &mut Vec<Call<'_>>, platform: &Calendar, jobs: &[Job]) -> Result<(), AllocError>
    ensures { OnOk result (calls.new.items ≡ calls.old.items ++ flat_map (calls_at (supply_of (items platform.now.courses)) jobs.now) (below 14400)) }
{
    for clock in 0..BELT_CYCLE {
        add_at(calls, platform, jobs, clock)?;
    }
    Ok(())
}

/// Adds the calls that take the jobs off.
fn add_unloads(calls: &mut Vec<Call<'_>>, jobs: &[Job]) -> Result<(), AllocError>
    ensures { OnOk result (calls.new.items ≡ calls.old.items ++ map unload jobs.now) }
{
    for job in jobs {
        calls.push(Call::Unload { number: job.number })?;
    }
    Ok(())
}

/// All calls, in their order.
pub(crate) fn calls_of<'a>(
    heap: Global,
    platform: &Calendar,
    texts: &[&'a [u8]],
    jobs: &[Job],
) -> Result<Vec<Call<'a>>, AllocError>
    ensures { IfOk result (λ cs. cs.items ≡ calls_of (supply_of (items platform.now.courses)) texts.now jobs.now) }
{
    let mut calls = Vec::new(heap);
    add_loads(&mut calls, texts)?;
    calls.push(Call::Start)?;
    add_cycle(&mut calls, platform, jobs)?;
    calls.push(Call::Stop)?;
    add_unloads(&mut calls, jobs)?;
    Ok(calls)
}

/// A history with these calls, none of which is made yet.
pub(crate) fn unanswered<'a>(heap: Global, calls: &[Call<'a>]) -> Result<Vec<Entry<'a>>, AllocError>
    ensures { IfOk result (λ es. map (λ e. e.call) es.items ≡ calls.now) }
{
    calls
        .iter()
        .map(|call| Entry {
            call: *call,
            answer: Answer::NotTaken,
            late_total: None,
        })
        .collect(heap)
}
