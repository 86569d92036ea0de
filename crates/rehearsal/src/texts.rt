//! The texts of an input, and the jobs that they write.
ghost use Rattle.std.specs.Prelude.{IfOk, map};
ghost use Rattle.rehearsal.specs.Texts.{AreJobs, Parted};
ghost use Rattle.std.specs.Option.{option_map};

use std::alloc::{AllocError, Global};
use task::job::Job;
use text::job_text::read_job;
use text::texts::first_text;

/// The texts of what is left of an input, in their order.
#[tactic(auto, using(listing::proofs::Leftover::leftover_falls))]
pub(crate) fn parted(heap: Global, texts: Option<&[u8]>) -> Result<Vec<&[u8]>, AllocError>
    ensures { IfOk result (λ ts. Parted (option_map (λ x. x.now) texts.entry) (map (λ x. x.now) ts.items)) }
{
    let mut found = Vec::new(heap);
    let mut left = texts;
    while let Some(input) = left {
        let (text, more) = first_text(input);
        found.push(text)?;
        left = more;
    }
    Ok(found)
}

/// The jobs that the texts write, in their order.
pub(crate) fn jobs_of(heap: Global, texts: &[&[u8]]) -> Result<Vec<Job>, AllocError>
    ensures { IfOk result (λ js. AreJobs (map (λ x. x.now) texts.now) js.items) }
{
    let mut jobs = Vec::new(heap);
    for text in texts {
        if let Ok(job) = read_job(text) {
            jobs.push(job)?;
        }
    }
    Ok(jobs)
}
