//! Reads a platform text and job texts from standard input, and prints the answers.
#![tactic(auto)]

use listing::listing::listing;
use listing::opening::MOST;
use std::io;
use std::io::Read;

/// The input, or as much of it as shows that it is too long.
fn read_input(rt: &HostRuntime) -> io::Result<Vec<u8>> {
    let mut input = Vec::new(rt.alloc());
    rt.stdin().take(MOST as u64 + 1).read_to_end(&mut input)?;
    Ok(input)
}

fn main(rt: HostRuntime) -> io::Result<()> {
    let input = read_input(&rt)?;
    let lines = listing(rt.alloc(), &input)?;
    rt.print(&lines)
}
