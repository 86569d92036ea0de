//! The lines of a sheet.
ghost use Rattle.std.specs.Prelude.{◌≡◌};
ghost use Rattle.sheet.specs.Lines.{node_line, title};

use arrayvec::ArrayString;
use itoa::Buffer;
use window::layout::Window;

/// The most bytes of a title: two numbers of at most 10 digits.
pub(crate) const TITLE: usize = 33;

/// The most bytes of a node's line: two numbers of at most 20 digits, and two of at most 10.
pub(crate) const LINE: usize = 69;

/// The first lines: the job and its choice.
#[derive(Debug, Clone, Copy, PartialEq, Eq)]
pub(crate) struct Title {
    pub(crate) job: u32,
    pub(crate) choice: u32,
}

impl Title {
    /// Its text.
    pub(crate) fn text(&self) -> ArrayString<TITLE>
        ensures { result.bytes ≡ title self.now.job self.now.choice }
    {
        let mut text = ArrayString::new();
        text.push_str("job=");
        text.push_str(Buffer::new().format(self.job));
        text.push_str("\nchoice=");
        text.push_str(Buffer::new().format(self.choice));
        text.push_str("\n");
        text
    }
}

/// The line of a sub-task: the engine it sits on, when it may run and is due, counted from the arrival.
#[derive(Debug, Clone, Copy, PartialEq, Eq)]
pub(crate) struct NodeLine {
    pub(crate) node: usize,
    pub(crate) engine: usize,
    pub(crate) window: Window,
}

impl NodeLine {
    /// Its text.
    pub(crate) fn text(&self) -> ArrayString<LINE>
        ensures { result.bytes ≡ node_line self.now.node self.now.engine self.now.window.offset self.now.window.deadline }
    {
        let Window { offset, deadline } = self.window;
        let mut text = ArrayString::new();
        text.push_str("node=");
        text.push_str(Buffer::new().format(self.node));
        text.push_str(",");
        text.push_str(Buffer::new().format(self.engine));
        text.push_str(",");
        text.push_str(Buffer::new().format(offset));
        text.push_str(",");
        text.push_str(Buffer::new().format(deadline));
        text.push_str("\n");
        text
    }
}
