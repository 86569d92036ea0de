//! What a part asks of the engine that it sits on.
#![tactic(auto)]

pub mod asking;
pub mod claim;
pub mod making;
pub mod plateau;
