//! Engines: who they are and what they serve.
#![tactic(auto)]

pub mod calendar;
mod course;
pub mod marks;
pub mod roster;
mod round;
mod sums;
pub mod supply;
pub mod tags;
pub mod whole;
