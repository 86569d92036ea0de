//! What the programs print, for callers in C: functions on bytes that share no state.
#![tactic(auto)]

pub mod printing;
mod writing;
