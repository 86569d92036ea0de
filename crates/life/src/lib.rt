//! The whole life of a board: any list of calls on a new one, and what comes of each.
#![tactic(auto)]

mod any_board;
pub mod call;
pub mod live;
