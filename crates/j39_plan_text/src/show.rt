//! What the show command writes.
ghost use Rattle.j39_plan_text.specs.ShownLines.{IsShowText};
ghost use Rattle.j39_stream.specs.CommandEnds.{AnswersWhole, IsOfAny};
ghost use Rattle.j39_stream.specs.Streams.{plan_limits};

use crate::reporting::{LineReport, report_text};
use crate::show_lines::write_line;
use j39_stream::{CommandResult, Sink, Source, Verdict};
use j39_text::{ReportResult, TextBuffer};
use j39_variants::ProductLine;
use std::alloc::Global;

// What is shown of a plan.
struct ShowReport;

impl LineReport for ShowReport {
    ghost use Rattle.j39_plan_text.specs.ShownLines.{IsShowReport};

    ghost says = { λ _. IsShowReport };

    fn report(&self, alloc: Global, line: ProductLine) -> ReportResult {
        let mut text = TextBuffer::new(alloc);
        write_line(&mut text, &line)?;
        Ok((text, Verdict::Done))
    }
}

/// Writes each value of the plan that a file describes, those too that the file leaves to their defaults, one a line,
/// whatever is wrong with the plan; or why the file describes none.
#[inline(never)]
pub fn show_text<S: Source, W: Sink>(alloc: Global, source: &mut S, sink: &mut W) -> CommandResult
    ensures { AnswersWhole IsShowText (IsOfAny IsShowText) plan_limits (S.state source.old)
        (S.state source.new) W.state sink.old sink.new result }
{
    report_text(alloc, &ShowReport, source, sink)
}
