//! A list that keeps its items in place, so that it needs no memory of its own.
#![tactic(auto)]

mod equality;
pub mod few;
pub mod items;
#[cfg(test)]
mod tests;
