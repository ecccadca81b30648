//! What is written of a plan file, and of the plan that it describes.
ghost use Rattle.j39_plan_text.specs.PlanText.{IsReportedText};
ghost use Rattle.j39_stream.specs.CommandEnds.{AnswersWhole, IsOfAny, PutsText};
ghost use Rattle.j39_stream.specs.Streams.{plan_limits};

use crate::plan_file::line_text;
use j39_stream::{CommandResult, Sink, Source, Verdict, put_all};
use j39_text::ReportResult;
use j39_variants::ProductLine;
use std::alloc::Global;

/// What is reported of a line of vehicles.
pub trait LineReport {
    ghost use Rattle.std.specs.Prelude.{ℕ, List, IfOk};
    ghost use Rattle.j39_variants.specs.declared.line.ProductLine.{ProductLine as ALine};
    ghost use Rattle.j39_stream.specs.declared.verdict.Verdict.{Verdict as AVerdict};

    /// This is written for it, with this verdict.
    ghost says: { Self → ALine → List ℕ → AVerdict → Type 0 };

    fn report(&self, alloc: Global, line: ProductLine) -> ReportResult
        ensures { IfOk result (λ report. says self.now line report.0 report.1) };
}

// Writes the report of a line of vehicles.
fn put_report<R: LineReport, W: Sink>(
    alloc: Global,
    report: &R,
    line: ProductLine,
    sink: &mut W,
) -> CommandResult
    ensures { PutsText (R.says report.now line) W.state sink.old sink.new result }
{
    let (text, verdict) = report.report(alloc, line)?;
    put_all(sink, text.as_slice())?;
    Ok(verdict)
}

/// Writes the report of the line of vehicles that a file describes, or why the file describes none.
pub fn report_text<R: LineReport, S: Source, W: Sink>(
    alloc: Global,
    report: &R,
    source: &mut S,
    sink: &mut W,
) -> CommandResult
    ensures { AnswersWhole (IsReportedText (R.says report.now))
        (IsOfAny (IsReportedText (R.says report.now))) plan_limits (S.state source.old) (S.state source.new)
        W.state sink.old sink.new result }
{
    match line_text(alloc, source, sink)? {
        Some(line) => put_report(alloc, report, line, sink),
        None => Ok(Verdict::Unreadable),
    }
}
