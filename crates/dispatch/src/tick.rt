//! What the sub-tasks of a tick go by.
ghost use Rattle.std.specs.Prelude.{◌<◌};

use crate::candidate::Next;
use engine::roster::ENGINES;
use task::node::Ticks;

/// A tick: the clock before it, what ran on each engine, and which engines report that it is done.
#[derive(Debug, Clone, Copy, PartialEq, Eq)]
pub(crate) struct Tick {
    pub(crate) clock: Ticks,
    pub(crate) ran: [Option<Next>; ENGINES],
    pub(crate) done: u16,
    ghost short: { clock < 2000000000 },
}
