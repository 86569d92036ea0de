//! The whole life of a board, as a program shows it: jobs are loaded, a belt cycle runs, and the jobs are taken off.
#![tactic(auto)]

mod calls;
pub mod rehearse;
mod report;
mod texts;
