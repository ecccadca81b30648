//! What is written for a line of vehicles.
ghost use Rattle.std.specs.Prelude.{◌≡◌, IfOk};
ghost use Rattle.j39_line_check.specs.LineChecks.{AreReported, SomePossible};
ghost use Rattle.j39_line_text.specs.LineCheckText.{IsLineReport, is_some_reported, line_ok_text, no_variant_text};

use crate::certificate::variants_without_findings_are_certified;
use crate::witness_lines::findings_text;
use j39_line_check::{LineAnswer, ReportedFinding, check_line};
use j39_stream::Verdict;
use j39_text::{ReportResult, TextBuffer};
use j39_variants::ProductLine;
use std::alloc::{AllocError, Global};

#[tactic(auto, unfolding(crate::specs::LineCheckText::line_ok_text))]
fn ok_text(alloc: Global, line: &ProductLine) -> Result<TextBuffer, AllocError>
    ensures { IfOk result (λ text. text ≡ line_ok_text line.now) }
{
    let mut text = TextBuffer::new(alloc);
    text.field("ok ", line.plan.units.len())?;
    text.field(" units ", line.plan.groups.len())?;
    text.field(" groups ", line.plan.flows.len())?;
    text.field(" flows ", line.choices.len())?;
    text.word(" choices\n")?;
    Ok(text)
}

#[tactic(auto, unfolding(crate::specs::LineCheckText::no_variant_text))]
pub(crate) fn no_variant_text(alloc: Global) -> Result<TextBuffer, AllocError>
    ensures { IfOk result (λ text. text ≡ no_variant_text) }
{
    let mut text = TextBuffer::new(alloc);
    text.word("F29 NoVariant\nfindings 1\n")?;
    Ok(text)
}

// Whether something is reported.
fn is_some_reported(reported: &[ReportedFinding], many: Option<u64>) -> bool
    ensures { result ≡ is_some_reported many reported.now }
{
    many.is_some() || !reported.is_empty()
}

// What is written where something is found of a line, or nothing.
fn found_report(
    alloc: Global,
    line: &ProductLine,
    reported: &[ReportedFinding],
    many: Option<u64>,
) -> ReportResult
    ensures { IfOk result (λ report. SomePossible line.now → AreReported line.now many reported.now
        → IsLineReport line.now report.0 report.1) }
{
    variants_without_findings_are_certified();
    if is_some_reported(reported, many) {
        let text = findings_text(alloc, line, reported, many)?;
        return Ok((text, Verdict::Findings));
    }
    let text = ok_text(alloc, line)?;
    Ok((text, Verdict::Done))
}

/// What is written for a line of vehicles, with the verdict.
pub(crate) fn line_report(alloc: Global, line: &ProductLine) -> ReportResult
    ensures { IfOk result (λ report. IsLineReport line.now report.0 report.1) }
{
    let answer = check_line(alloc, line)?;
    match answer {
        LineAnswer::NoVariant => {
            let text = no_variant_text(alloc)?;
            Ok((text, Verdict::Findings))
        }
        LineAnswer::Found(reported, looked) => {
            let report = found_report(alloc, line, &reported, looked.many())?;
            Ok(report)
        }
    }
}
