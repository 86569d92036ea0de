//! The board: jobs that sit on its engines, and the calls that place them.
#![tactic(auto)]

pub mod adding;
pub mod asked;
pub mod board;
pub mod loading;
pub mod placing;
pub mod refusal;
pub mod residents;
pub mod sheets;
pub mod unloading;
