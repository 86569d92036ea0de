//! A board that runs: its jobs arrive, and tick by tick its engines work on what they open.
#![tactic(auto)]

pub mod arriving;
pub mod asking;
mod known;
mod reached;
pub mod running;
pub mod starting;
pub mod stopping;
pub mod ticking;
