//! The longest paths of a concrete graph, and the windows of its sub-tasks.
#![tactic(auto)]

pub mod greatest;
pub mod layout;
pub mod lengths;
pub mod possible;
pub mod windows;
