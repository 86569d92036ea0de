//! What is printed of a history.
ghost use Rattle.std.specs.Prelude.{◌≡◌, IfOk, string_bytes};
ghost use Rattle.listing.specs.Answer.{refused_text};
ghost use Rattle.rehearsal.specs.Report.{arrivals, arrived_by, is_next, job_report, late_by, lates, load_report, ran_by, ran_line, report, ticks_of};

use dispatch::candidate::Next;
use life::call::{Answer, Call, Entry};
use std::alloc::{AllocError, Global};
use task::node::NODES;

/// Whether this sub-task is what ran on an engine.
fn is_next(next: Option<Next>, number: u32, node: usize) -> bool
    ensures { result ≡ is_next number node next }
{
    match next {
        Some(next) => next.job == number && next.node == node,
        None => false,
    }
}

/// Whether the entry is an arrival of the job that was granted.
fn has_arrived(entry: &Entry<'_>, number: u32) -> bool
    ensures { result ≡ arrived_by number entry.now.call entry.now.answer }
{
    match (&entry.call, &entry.answer) {
        (Call::Arrive { number: its, .. }, Answer::Done) => *its == number,
        _ => false,
    }
}

/// Whether the entry is a tick in which the sub-task ran.
fn has_run(entry: &Entry<'_>, number: u32, node: usize) -> bool
    ensures { result ≡ ran_by number node entry.now.answer }
{
    match &entry.answer {
        Answer::Ticked { ran, .. } => ran.iter().any(|next| is_next(*next, number, node)),
        _ => false,
    }
}

/// How many sub-tasks became late in the entry.
fn late(entry: &Entry<'_>) -> u32
    ensures { result ≡ late_by entry.now.answer }
{
    match &entry.answer {
        Answer::Ticked { late, .. } => *late,
        _ => 0,
    }
}

/// How many arrivals of the job were granted.
fn arrivals(history: &[Entry<'_>], number: u32) -> usize
    ensures { result ≡ arrivals history.now number }
{
    history
        .iter()
        .filter(|entry| has_arrived(entry, number))
        .count()
}

/// In how many ticks the sub-task ran.
fn ticks_of(history: &[Entry<'_>], number: u32, node: usize) -> usize
    ensures { result ≡ ticks_of history.now number node }
{
    history
        .iter()
        .filter(|entry| has_run(entry, number, node))
        .count()
}

/// How many sub-tasks became late.
fn lates(history: &[Entry<'_>]) -> u128
    ensures { result ≡ lates history.now }
{
    history.iter().map(|entry| u128::from(late(entry))).sum()
}

/// The line of a sub-task, if it ran.
fn ran_line(
    heap: Global,
    history: &[Entry<'_>],
    number: u32,
    node: usize,
) -> Result<String, AllocError>
    ensures { IfOk result (λ s. string_bytes s ≡ ran_line history.now number node) }
{
    let ticks = ticks_of(history, number, node);
    if ticks == 0 {
        return Ok(String::new(heap));
    }
    format!(in heap; "ran={node},{ticks}\n")
}

/// The lines of a job that was loaded.
fn job_report(heap: Global, history: &[Entry<'_>], number: u32) -> Result<String, AllocError>
    ensures { IfOk result (λ s. string_bytes s ≡ job_report history.now number) }
{
    let arrivals = arrivals(history, number);
    let mut lines = format!(in heap; "answer=0\njob={number}\narrivals={arrivals}\n")?;
    for node in 0..NODES {
        lines.push_str(&ran_line(heap, history, number, node)?)?;
    }
    Ok(lines)
}

/// What is printed of an entry: something of each load.
fn load_report(heap: Global, history: &[Entry<'_>], entry: &Entry<'_>) -> Result<String, AllocError>
    ensures { IfOk result (λ s. string_bytes s ≡ load_report history.now entry.now.call entry.now.answer) }
{
    match (&entry.call, &entry.answer) {
        (Call::Load { .. }, Answer::Loaded { number }) => job_report(heap, history, *number),
        (Call::Load { .. }, Answer::Refused { refusal }) => {
            format!(in heap; "answer={refusal}\n")
        }
        _ => Ok(String::new(heap)),
    }
}

/// What is printed of a history.
pub(crate) fn report(heap: Global, history: &[Entry<'_>]) -> Result<String, AllocError>
    ensures { IfOk result (λ s. string_bytes s ≡ report history.now) }
{
    let mut lines = String::new(heap);
    for entry in history {
        lines.push_str(&load_report(heap, history, entry)?)?;
    }
    let late = lates(history);
    lines.push_str(&format!(in heap; "late={late}\n")?)?;
    Ok(lines)
}
