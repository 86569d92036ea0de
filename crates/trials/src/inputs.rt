//! Whole inputs of the seating program, with all that it prints of them.
use crate::board_inputs::BOARD_INPUTS;
use crate::branch_inputs::BRANCH_INPUTS;
use crate::choice_inputs::CHOICE_INPUTS;
use crate::drawn_inputs::DRAWN_INPUTS;
use crate::fork_inputs::FORK_INPUTS;
use crate::line_inputs::LINE_INPUTS;
use crate::long_inputs::LONG_INPUTS;
use crate::placing_inputs::{FAR_INPUTS, PLACING_INPUTS};
use crate::platform_inputs::PLATFORM_INPUTS;
use crate::value_inputs::{FORM_INPUTS, RANGE_INPUTS};
use listing::listing::listing;
use std::alloc::Global;
use std::process::Abort;
use std::test::Fail;

/// What a case is of, its input, and what the program prints. In both `|` stands for byte 10.
pub type Input = (&'static str, &'static [u8], &'static str);

// A byte 10 where the short form has `|`.
fn byte_of(short: &u8) -> u8 {
    if *short == b'|' { b'\n' } else { *short }
}

// What the program prints of an input, in the short form.
fn printed(heap: Global, input: &[u8]) -> Result<String, Fail> {
    let lines = listing(heap, input)?;
    let short = lines
        .chars()
        .map(|letter| if letter == '\n' { '|' } else { letter })
        .collect(heap)?;
    Ok(short)
}

// What fails says its name.
fn try_inputs(rt: &impl Abort, heap: Global, cases: &[Input]) -> Result<(), Fail> {
    for (name, short, prints) in cases.iter() {
        let input: Vec<u8> = short.iter().map(byte_of).collect(heap)?;
        assert_eq!(rt; printed(heap, &input)?.as_str(), *prints, "{name}");
    }
    Ok(())
}

#[test]
fn platforms(rt: HostRuntime) -> Result<(), Fail> {
    try_inputs(&rt, rt.alloc(), &PLATFORM_INPUTS)
}

#[test]
fn lines(rt: HostRuntime) -> Result<(), Fail> {
    try_inputs(&rt, rt.alloc(), &LINE_INPUTS)
}

#[test]
fn values(rt: HostRuntime) -> Result<(), Fail> {
    try_inputs(&rt, rt.alloc(), &FORM_INPUTS)?;
    try_inputs(&rt, rt.alloc(), &RANGE_INPUTS)
}

#[test]
fn forks(rt: HostRuntime) -> Result<(), Fail> {
    try_inputs(&rt, rt.alloc(), &FORK_INPUTS)
}

#[test]
fn choices(rt: HostRuntime) -> Result<(), Fail> {
    try_inputs(&rt, rt.alloc(), &CHOICE_INPUTS)
}

#[test]
fn branches(rt: HostRuntime) -> Result<(), Fail> {
    try_inputs(&rt, rt.alloc(), &BRANCH_INPUTS)
}

#[test]
fn places(rt: HostRuntime) -> Result<(), Fail> {
    try_inputs(&rt, rt.alloc(), &PLACING_INPUTS)?;
    try_inputs(&rt, rt.alloc(), &FAR_INPUTS)
}

#[test]
fn boards(rt: HostRuntime) -> Result<(), Fail> {
    try_inputs(&rt, rt.alloc(), &BOARD_INPUTS)
}

#[test]
fn drawn(rt: HostRuntime) -> Result<(), Fail> {
    try_inputs(&rt, rt.alloc(), &DRAWN_INPUTS)
}

#[test]
fn long(rt: HostRuntime) -> Result<(), Fail> {
    for (name, front, fill, times, back, prints) in LONG_INPUTS.iter() {
        let mut input: Vec<u8> = front.iter().map(byte_of).collect(rt.alloc())?;
        for _ in 0..*times {
            input.push(*fill)?;
        }
        for short in back.iter() {
            input.push(byte_of(short))?;
        }
        assert_eq!(rt; printed(rt.alloc(), &input)?.as_str(), *prints, "{name}");
    }
    Ok(())
}
