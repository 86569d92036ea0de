//! Jobs: conditional task graphs, their choices and branches.
#![tactic(auto)]

pub mod concrete;
pub mod graph;
pub mod job;
pub mod node;
pub mod numbers;
mod picks;
pub mod ranges;
pub mod sound;
pub mod tables;
