//! What the check command writes.
ghost use Rattle.j39_line_text.specs.LineCheckText.{IsLineCheckText};
ghost use Rattle.j39_stream.specs.CommandEnds.{AnswersWhole, IsOfAny};
ghost use Rattle.j39_stream.specs.Streams.{plan_limits};

use crate::line_report::line_report;
use j39_plan_text::{LineReport, check_report, report_text};
use j39_stream::{CommandResult, Sink, Source};
use j39_text::ReportResult;
use j39_variants::ProductLine;
use std::alloc::Global;

// What is found of a line, of its one plan where it has no choices.
struct CheckReport;

impl LineReport for CheckReport {
    ghost use Rattle.j39_line_text.specs.LineCheckText.{IsPlanOrLineReport};

    ghost says = { λ _. IsPlanOrLineReport };

    fn report(&self, alloc: Global, line: ProductLine) -> ReportResult {
        if line.has_choices() {
            return line_report(alloc, &line);
        }
        check_report(alloc, &line.plan)
    }
}

/// Writes everything that is wrong with the plan that a file describes, or that nothing is, or why the file describes
/// none. Of a line of vehicles: that nothing is wrong with any possible variant, that none is possible, or each finding
/// that one has, and that the full ones are too many to look at each.
#[inline(never)]
pub fn check_line_text<S: Source, W: Sink>(
    alloc: Global,
    source: &mut S,
    sink: &mut W,
) -> CommandResult
    ensures { AnswersWhole IsLineCheckText (IsOfAny IsLineCheckText) plan_limits (S.state source.old)
        (S.state source.new) W.state sink.old sink.new result }
{
    report_text(alloc, &CheckReport, source, sink)
}
