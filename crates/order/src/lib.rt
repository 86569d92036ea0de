//! The order in which engines are tried.
#![tactic(auto)]

pub mod fullest;
pub mod least;
pub mod order;
pub mod rota;
pub mod turns;
