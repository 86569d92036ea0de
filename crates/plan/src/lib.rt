//! A job under one of its choices: the windows of its sub-tasks, what each arrival reaches, and its parts.
#![tactic(auto)]

pub mod part;
pub mod parts;
pub mod plan;
pub mod plans;
