//! What the seating program prints.
#![tactic(auto)]

mod answer;
pub mod lines;
pub mod listing;
pub mod opening;
