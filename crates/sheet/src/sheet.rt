//! The sheet of a placed job.
ghost use Rattle.std.specs.Prelude.{◌≡◌, ◌<◌, ◌≤◌, ◌↔◌, ◌++◌, length, drop, codes, if◌then◌else◌, Some, None, IsErr, IfOk, OnErr};
ghost use Rattle.plan.specs.Plan.{nodes_of};
ghost use Rattle.sheet.specs.Sheet.{has_line, line_at, sheet_of};

use crate::lines::{LINE, NodeLine, TITLE, Title};
use arrayvec::ArrayString;
use resident::resident::Resident;
use std::error::Error;
use std::fmt;
use task::node::{NODES, Node};

/// The most bytes of a sheet.
pub const SHEET: usize = TITLE + NODES * LINE;

/// The buffer is too short for the sheet.
#[derive(Debug, Clone, Copy, PartialEq, Eq)]
pub struct Short;

impl fmt::Display for Short {
    ghost output = { λ _. Some (codes "the buffer is too short for the sheet") };

    fn fmt<W: fmt::Write>(&self, f: &mut fmt::Formatter<W>) -> fmt::Result {
        write!(f, "the buffer is too short for the sheet")
    }
}

impl Error for Short {}

/// What a placed job shows as: its number and choice, and a line for each of its sub-tasks.
#[derive(Debug, Clone, Copy)]
pub struct Sheet<'a> {
    pub resident: &'a Resident,
}

impl Sheet<'_> {
    /// The line of a node, if it is a sub-task of the concrete graph.
    fn line(&self, v: usize) -> Option<NodeLine>
        requires { v < length (nodes_of self.now.resident.now.plan) }
        ensures { result ≡ (if has_line self.now.resident.now v then Some (line_at self.now.resident.now v) else None) }
    {
        let plan = &self.resident.plan;
        let is_member = plan.members[v];
        match plan.job.graph().get(v) {
            Some(Node::SubTask { tag, .. }) if is_member => Some(NodeLine {
                node: v,
                // Every part of a placed job sits on an engine.
                engine: self.resident.engine_of(*tag).unwrap(),
                window: plan.windows[v],
            }),
            _ => None,
        }
    }

    /// Its text.
    fn text(&self) -> ArrayString<SHEET>
        ensures { result.bytes ≡ sheet_of self.now.resident.now }
    {
        let plan = &self.resident.plan;
        let title = Title {
            job: self.resident.number(),
            choice: plan.choice,
        };
        let mut text = ArrayString::new();
        text.push_str(title.text().as_str());
        for v in 0..plan.job.graph().len() {
            if let Some(line) = self.line(v) {
                text.push_str(line.text().as_str());
            }
        }
        text
    }
}

impl fmt::Display for Sheet<'_> {
    ghost output = { λ s. Some (sheet_of s.resident.now) };

    fn fmt<W: fmt::Write>(&self, f: &mut fmt::Formatter<W>) -> fmt::Result {
        f.write_str(self.text().as_str())
    }
}

/// Writes the sheet of a placed job into the first bytes of a buffer, and tells how many they are.
pub fn write_sheet(resident: &Resident, buffer: &mut [u8]) -> Result<usize, Short>
    ensures short { IsErr result ↔ (length buffer.old < length (sheet_of resident.now)) }
    ensures written { IfOk result (λ n. (n ≡ length (sheet_of resident.now)) × (buffer.new ≡ sheet_of resident.now ++ drop n buffer.old)) }
    ensures refused { OnErr result (buffer.new ≡ buffer.old) }
    ensures few { length (sheet_of resident.now) ≤ SHEET }
{
    // The text is made beside the buffer, so that one that is too short stays as it was.
    let text = Sheet { resident }.text();
    let bytes = text.as_bytes();
    if buffer.len() < bytes.len() {
        return Err(Short);
    }
    buffer[..bytes.len()].copy_from_slice(bytes);
    Ok(bytes.len())
}
