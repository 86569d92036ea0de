//! Reading jobs and platforms from text.
#![tactic(auto)]

pub mod calendar_text;
pub mod fault;
pub mod job_text;
pub mod key;
mod lines;
pub mod platform_text;
mod split;
mod take;
pub mod texts;
pub mod value;
