//! What the load command writes.
ghost use Rattle.std.specs.Prelude.{◌≡◌, IfOk, Some};
ghost use Rattle.j39_line_check.specs.LookedTimes.{AreLookedTimes};
ghost use Rattle.j39_load.specs.BusTimes.{timing_of};
ghost use Rattle.j39_line_text.specs.Hindrances.{AreReportedAt, IsShownLine};
ghost use Rattle.j39_line_text.specs.LineLoadText.{IsLineLoadReport, IsLineLoadText, IsTimesReport, ReportsLineTiming};
ghost use Rattle.j39_line_text.specs.LineLoadText.{line_load_verdict};
ghost use Rattle.j39_line_check.specs.declared.answer.LookedAt.{LookedAt as Looked};
ghost use Rattle.j39_line_text.specs.declared.hindrances.Asked.TheVariants.{Times};
ghost use Rattle.j39_stream.specs.CommandEnds.{AnswersWhole, IsOfAny};
ghost use Rattle.j39_stream.specs.Streams.{plan_limits};

use crate::hindrances::{Asked, is_hidden};
use crate::line_report::no_variant_text;
use crate::shown_times::shown_times;
use crate::time_lines::write_times;
use crate::witness_lines::{findings_text, write_unshown};
use j39_line_bounds::{LineTimes, times_bound_these};
use j39_line_check::{LineAnswer, LookedAt, ReportedFinding, check_line_with_times};
use j39_load::timing_of;
use j39_network::Timing;
use j39_plan_text::{LineReport, load_report, report_text};
use j39_stream::{CommandResult, Sink, Source, Verdict};
use j39_text::{ReportResult, TextBuffer};
use j39_variants::ProductLine;
use std::alloc::Global;

fn verdict_of(reported: &[ReportedFinding]) -> Verdict
    ensures { result ≡ line_load_verdict reported.now }
{
    if reported.is_empty() {
        Verdict::Done
    } else {
        Verdict::Findings
    }
}

// What is reported of the times of a line, where nothing stands in its way, and behind it the findings of which this
// says nothing.
fn times_report(
    alloc: Global,
    line: &ProductLine,
    timing: Timing,
    reported: &[ReportedFinding],
    times: &LineTimes,
) -> ReportResult
    ensures { IfOk result (λ report. (looked : Looked) → timing_of line.now.plan ≡ Some timing
        → IsShownLine Times line.now looked reported.now
        → AreLookedTimes line.now looked times.now → IsTimesReport line.now timing report.0 report.1) }
{
    times_bound_these();
    let shown = shown_times(alloc, line, times, reported)?;
    let mut text = TextBuffer::new(alloc);
    write_times(&mut text, &line.plan, timing, &shown)?;
    write_unshown(alloc, &mut text, line, reported)?;
    Ok((text, verdict_of(reported)))
}

// What is written of the load of a line of which this is found.
fn found_load(
    alloc: Global,
    line: &ProductLine,
    timing: Timing,
    reported: &[ReportedFinding],
    looked: &LookedAt,
    times: &LineTimes,
) -> ReportResult
    ensures { IfOk result (λ report. timing_of line.now.plan ≡ Some timing
        → AreReportedAt line.now looked.now reported.now
        → AreLookedTimes line.now looked.now times.now → IsLineLoadReport line.now timing report.0 report.1) }
{
    let many = looked.many();
    if is_hidden(Asked::Times, reported, many) {
        let text = findings_text(alloc, line, reported, many)?;
        return Ok((text, Verdict::Findings));
    }
    let report = times_report(alloc, line, timing, reported, times)?;
    Ok(report)
}

// What is written of the load of a line of vehicles, with the verdict.
fn line_load(alloc: Global, line: &ProductLine, timing: Timing) -> ReportResult
    ensures { IfOk result (λ report. timing_of line.now.plan ≡ Some timing
        → IsLineLoadReport line.now timing report.0 report.1) }
{
    let (answer, times) = check_line_with_times(alloc, line)?;
    match answer {
        LineAnswer::NoVariant => {
            let text = no_variant_text(alloc)?;
            Ok((text, Verdict::Findings))
        }
        LineAnswer::Found(reported, looked) => {
            let report = found_load(alloc, line, timing, &reported, &looked, &times)?;
            Ok(report)
        }
    }
}

// What is known of the bus of a line, where it has choices.
#[tactic(auto, using(crate::proofs::LineTimings::reported_timing))]
fn line_timing(line: &ProductLine) -> Option<Timing>
    ensures { ReportsLineTiming line.now result }
{
    if !line.has_choices() {
        return None;
    }
    timing_of(&line.plan)
}

// What is reported of the load of a line, of its one plan where it has no choices or nothing is known of its bus.
struct TimesReport;

impl LineReport for TimesReport {
    ghost use Rattle.j39_line_text.specs.LineLoadText.{IsPlanOrLineLoad};

    ghost says = { λ _. IsPlanOrLineLoad };

    fn report(&self, alloc: Global, line: ProductLine) -> ReportResult {
        match line_timing(&line) {
            Some(timing) => {
                let report = line_load(alloc, &line, timing)?;
                Ok(report)
            }
            None => {
                let report = load_report(alloc, &line.plan)?;
                Ok(report)
            }
        }
    }
}

/// Writes of each flow of the plan that a file describes how long its frames wait at most, that they aren't shown to be
/// in time, or that it has no period, how much of the bus all flows take, and the findings of which these lines say
/// nothing, of a line of vehicles the worst of the variants at which `check` looks; where a finding hides the times, or
/// a line has too many full variants, what `check` writes, and how many these are; that nothing is known of its bus; or
/// why the file describes no plan.
#[inline(never)]
pub fn load_line_text<S: Source, W: Sink>(
    alloc: Global,
    source: &mut S,
    sink: &mut W,
) -> CommandResult
    ensures { AnswersWhole IsLineLoadText (IsOfAny IsLineLoadText) plan_limits (S.state source.old)
        (S.state source.new) W.state sink.old sink.new result }
{
    report_text(alloc, &TimesReport, source, sink)
}
