//! The sheet of a placed job: when each of its sub-tasks may run, by when it is due, and where.
#![tactic(auto)]

mod lines;
pub mod sheet;
#[cfg(test)]
mod tests;
