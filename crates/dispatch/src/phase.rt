//! Where an open sub-task stands.
ghost use Rattle.std.specs.Prelude.{◌≡◌};
ghost use Rattle.dispatch.specs.Phase.{is_ready, is_waiting, meaning, stepped};
ghost use Rattle.runs.specs.State.{is_pending};

use task::node::Ticks;

/// Where an open sub-task stands: it waits for its release, it is ready, it is finished, or its end has passed before that.
#[derive(Debug, Clone, Copy, PartialEq, Eq)]
pub enum Phase {
    Waiting { left: Ticks },
    Ready { left: Ticks },
    Finished,
    Late,
}

/// What can happen to an open sub-task.
#[derive(Debug, Clone, Copy, PartialEq, Eq)]
pub enum Event {
    /// Its release has come.
    OffsetReached,
    /// It ran for a tick.
    Served,
    /// Its engine reports that its work is done.
    Done,
    /// Its end has come.
    EndPassed,
}

impl Phase {
    /// Takes the event; what it does not concern stays as it is.
    pub fn step(&mut self, event: Event)
        ensures { self.new ≡ stepped event self.old }
    {
        *self = match (*self, event) {
            (Phase::Waiting { left }, Event::OffsetReached) => Phase::Ready { left },
            (Phase::Waiting { left }, Event::Served) if left > 1 => Phase::Waiting {
                left: left - 1,
            },
            (Phase::Ready { left }, Event::Served) if left > 1 => Phase::Ready { left: left - 1 },
            (Phase::Waiting { .. } | Phase::Ready { .. }, Event::Served | Event::Done) => {
                Phase::Finished
            }
            (Phase::Waiting { .. } | Phase::Ready { .. }, Event::EndPassed) => Phase::Late,
            (phase, _) => phase,
        };
    }

    /// Whether it waits or is ready.
    pub(crate) fn is_pending(self) -> bool
        ensures { result ≡ is_pending (meaning self) }
    {
        matches!(self, Phase::Waiting { .. } | Phase::Ready { .. })
    }

    /// Whether it is ready.
    pub(crate) fn is_ready(self) -> bool
        ensures { result ≡ is_ready self }
    {
        matches!(self, Phase::Ready { .. })
    }

    /// Whether it waits.
    pub(crate) fn is_waiting(self) -> bool
        ensures { result ≡ is_waiting self }
    {
        matches!(self, Phase::Waiting { .. })
    }
}
