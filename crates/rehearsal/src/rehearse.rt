//! A rehearsal: what comes of the jobs of an input in a belt cycle.
ghost use Rattle.std.specs.Prelude.{IfOk, string_bytes};
ghost use Rattle.rehearsal.specs.Rehearsal.{Plays, Rehearses};
ghost use Rattle.std.specs.Option.{option_map};

use crate::calls::{calls_of, unanswered};
use crate::report::report;
use crate::texts::{jobs_of, parted};
use engine::calendar::Calendar;
use life::call::Entry;
use life::live::live;
use listing::opening::{Opened, open};
use order::fullest::Fullest;
use slack::proportional::Proportional;
use std::alloc::{AllocError, Global};

/// The history of a board from new on: it loads the texts that are left of an input, runs for a belt cycle, and lets the jobs go.
fn play<'a>(
    heap: Global,
    platform: Calendar,
    left: Option<&'a [u8]>,
) -> Result<Vec<Entry<'a>>, AllocError>
    ensures { IfOk result (λ es. Plays platform (option_map (λ x. x.now) left.entry) es.items) }
{
    let texts = parted(heap, left)?;
    let jobs = jobs_of(heap, &texts)?;
    let calls = calls_of(heap, &platform, &texts, &jobs)?;
    let mut history = unanswered(heap, &calls)?;
    live(platform, Proportional, Fullest, &mut history);
    Ok(history)
}

/// What a rehearsal prints of its input: a platform text and job texts, parted by empty lines.
pub fn rehearse(heap: Global, input: &[u8]) -> Result<String, AllocError>
    ensures { IfOk result (λ s. Rehearses input.now (string_bytes s)) }
{
    match open(input) {
        Ok(Opened { platform, texts }) => report(heap, &play(heap, platform, texts)?),
        Err(fault) => format!(in heap; "answer={fault}\n"),
    }
}
