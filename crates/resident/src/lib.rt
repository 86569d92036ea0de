//! A job that sits on the engines of a board.
#![tactic(auto)]

pub mod asking;
pub mod resident;
