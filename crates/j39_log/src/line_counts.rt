//! How many lines of a log there are of each sort.
ghost use Rattle.std.specs.Prelude.{◌≡◌, ◌^◌, ◌++◌, OnOk};
ghost use Rattle.j39_log.specs.LineCounting.{AreWithin, counted_over, counts_text, no_lines};

use j39_id::LineError;
use j39_text::{TextBuffer, WriteResult};

/// How many lines of a log there are of each sort. A line without a word is of none.
#[derive(Clone, Copy)]
pub struct LineCounts {
    /// Lines that are read as frames.
    pub frames: u64,
    /// Lines of an 11-bit identifier.
    pub skipped: u64,
    /// Lines that spell no frame, and lines that are too long.
    pub bad: u64,
    /// Lines of another interface than the log's.
    pub elsewhere: u64,
}

impl LineCounts {
    pub fn new() -> Self
        ensures { result ≡ no_lines }
    {
        LineCounts {
            frames: 0,
            skipped: 0,
            bad: 0,
            elsewhere: 0,
        }
    }

    /// Counts a line that spells no frame: one of an 11-bit identifier as skipped, and one without a word not at all.
    pub fn pass_over(&mut self, error: LineError)
        requires { AreWithin self.old (2 ^ 62) }
        ensures { self.new ≡ counted_over error self.old }
    {
        match error {
            LineError::Empty => {}
            LineError::ShortIdent => self.skipped += 1,
            _other => self.bad += 1,
        }
    }

    /// Writes how many lines are read as frames, skipped and bad.
    #[tactic(auto, unfolding(crate::specs::LineCounting::counts_text))]
    pub fn write(&self, text: &mut TextBuffer) -> WriteResult
        ensures { OnOk result (text.new ≡ text.old ++ counts_text self.now) }
    {
        text.field("frames ", self.frames)?;
        text.field(" skipped ", self.skipped)?;
        text.field(" bad ", self.bad)
    }
}
