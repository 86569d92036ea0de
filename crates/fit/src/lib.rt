//! Whether an engine serves what claims ask of it.
#![tactic(auto)]

pub mod demands;
pub mod fits;
pub mod room;
