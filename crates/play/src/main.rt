//! Plays a history of calls on one board, and prints what each call answers.
#![tactic(auto)]

mod answer;
mod any_board;
mod call;
mod name;
mod play;
mod setup;
#[cfg(test)]
mod tests;
mod texts;
mod whole;
mod words;

use crate::play::play;
use std::io;
use std::io::Read;

/// All of the input.
fn read_input(rt: &HostRuntime) -> io::Result<Vec<u8>> {
    let mut input = Vec::new(rt.alloc());
    rt.stdin().read_to_end(&mut input)?;
    Ok(input)
}

fn main(rt: HostRuntime) -> io::Result<()> {
    let input = read_input(&rt)?;
    let lines = play(rt.alloc(), &input)?;
    rt.print(&lines)
}
