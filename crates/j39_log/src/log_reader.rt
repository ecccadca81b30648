//! A reader of logs, whatever reports their lines.
use crate::groups::Groups;
use crate::line_counts::LineCounts;
use crate::log_report::LogReport;
use j39_id::Cut;
use j39_stream::{Fault, LineReader, Sink, Verdict};
use j39_text::{TextBuffer, put_text};
use std::alloc::AllocError;

/// A reader of a log by the groups of a plan: it counts its lines, and keeps what is reported of them until it is put.
#[derive(Drop)]
pub(crate) struct LogReader<'a, R> {
    pub groups: &'a Groups<'a>,
    pub report: &'a mut R,
    pub counts: LineCounts,
    // The number of the last line that was read, counted from 1.
    pub number: u64,
    pub text: TextBuffer,
}

impl<'a, R: LogReport> LineReader for LogReader<'a, R> {
    ghost use Rattle.std.specs.Prelude.{◌≡◌, ◌≤◌, ◌++◌, length, true};
    ghost use Rattle.j39_log.specs.LineCounting.{AreWithin};
    ghost use Rattle.j39_stream.specs.declared.verdict.Verdict.TheVariants.{Done};

    ghost text = { λ reader. reader.text };

    ghost goes = { λ _. true };

    ghost has_read = { λ reader ls written. (reader.number ≡ length ls)
        × R.has_reported reader.report.now reader.groups.now reader.counts ls (written ++ reader.text) };

    ghost is_text = { λ reader log text verdict. R.is_log_text reader.report.now reader.groups.now log text
        × (verdict ≡ Done) };

    ghost within = { λ reader most. (reader.number ≤ most) × AreWithin reader.counts most };

    fn goes_on(&self) -> bool {
        true
    }

    fn read(&mut self, cut: Cut, line: &[u8]) -> Result<(), AllocError> {
        match cut {
            Cut::More => Ok(()),
            Cut::Line => {
                self.number += 1;
                self.report.read_line(
                    self.groups,
                    self.number,
                    line,
                    &mut self.counts,
                    &mut self.text,
                )
            }
            Cut::Long => {
                self.number += 1;
                self.counts.bad += 1;
                Ok(())
            }
        }
    }

    fn close(&mut self) -> Result<Verdict, AllocError> {
        self.report
            .write_end(self.groups, &self.counts, &mut self.text)?;
        Ok(Verdict::Done)
    }

    fn put<W: Sink>(&mut self, sink: &mut W) -> Result<(), Fault> {
        put_text(sink, &mut self.text)
    }
}
