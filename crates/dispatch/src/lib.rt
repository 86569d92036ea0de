//! Which sub-tasks run: the open sub-tasks of a board that runs, in place, and what a tick does to them.
#![tactic(auto)]

pub mod asking;
pub mod candidate;
pub mod choosing;
pub mod mask;
pub mod opening;
pub mod phase;
pub mod slot;
pub mod sub_task;
pub mod table;
mod tick;
pub mod ticking;
