//! Slack rules: how a job's deadline is shared out among its sub-tasks.
#![tactic(auto)]

pub mod even;
pub mod proportional;
pub mod rule;
