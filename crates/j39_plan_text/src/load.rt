//! What is written of what a plan asks of its bus.
ghost use Rattle.std.specs.Prelude.{◌≡◌, ◌+◌, ◌++◌, ◌≤◌, IfOk, OnOk, count_by, length};
ghost use Rattle.j39_plan_text.specs.LoadText.{IsLoadReport, hides_times, is_unshown, load_verdict, shows_times};
ghost use Rattle.j39_plan_text.specs.LoadText.{unshown_count, unshown_found, unshown_lines, unshown_text};
ghost use Rattle.j39_load.specs.BusTimes.{timing_of};

use crate::finding_lines::{is_between, write_lines};
use crate::load_lines::{write_load_findings, write_loads};
use crate::plan_report::write_findings;
use j39_answer::PlanAnswer;
use j39_findings::Finding;
use j39_load::LoadFinding;
use j39_network::Plan;
use j39_stream::Verdict;
use j39_text::{ReportResult, TextBuffer, WriteResult};
use std::alloc::Global;

/// Whether no times are reported where a finding of this number is.
pub fn hides_times(number: u8) -> bool
    ensures { result ≡ hides_times number }
{
    is_between(1, 6, number) || is_between(9, 13, number) || is_between(26, 29, number)
}

// Whether there is none of these.
fn shows_times(findings: &[Finding]) -> bool
    ensures { result ≡ shows_times findings.now }
{
    findings
        .iter()
        .all(|finding| !hides_times(finding.number()))
}

// Whether the lines of the load don't report of it.
fn is_unshown(finding: LoadFinding) -> bool
    ensures { result ≡ is_unshown finding }
{
    is_between(16, 17, finding.number()) || is_between(31, 32, finding.number())
}

// How many of these there are.
fn count_unshown(others: &[LoadFinding]) -> usize
    ensures count { result ≡ count_by is_unshown others.now }
    ensures few { result ≤ length others.now }
{
    let mut count = 0;
    for finding in others {
        if is_unshown(*finding) {
            count += 1;
        }
    }
    count
}

// Writes findings, as check writes them: those of which the lines of the load don't report.
#[tactic(auto, unfolding(crate::specs::LoadText::unshown_found))]
fn write_unshown_found(
    alloc: Global,
    text: &mut TextBuffer,
    plan: &Plan,
    findings: &[Finding],
    others: &[LoadFinding],
) -> WriteResult
    ensures { OnOk result (text.new ≡ text.old ++ unshown_found plan.now findings.now others.now) }
{
    write_lines(alloc, text, plan, findings, 1, 16)?;
    write_load_findings(text, others, 16, 17)?;
    write_lines(alloc, text, plan, findings, 19, 20)?;
    write_lines(alloc, text, plan, findings, 21, 29)?;
    write_load_findings(text, others, 31, 32)
}

// Writes so many findings, and how many they are.
#[tactic(auto, unfolding(crate::specs::LoadText::unshown_lines))]
fn write_unshown_lines(
    alloc: Global,
    text: &mut TextBuffer,
    plan: &Plan,
    findings: &[Finding],
    others: &[LoadFinding],
    count: usize,
) -> WriteResult
    requires { count ≡ unshown_count findings.now others.now }
    ensures { OnOk result (text.new ≡ text.old ++ unshown_lines plan.now findings.now others.now) }
{
    write_unshown_found(alloc, text, plan, findings, others)?;
    text.field("findings ", count)?;
    text.end_line()
}

// The same, where there are any.
#[tactic(auto, unfolding(crate::specs::LoadText::unshown_text))]
fn write_unshown(
    alloc: Global,
    text: &mut TextBuffer,
    plan: &Plan,
    findings: &[Finding],
    others: &[LoadFinding],
) -> WriteResult
    ensures { OnOk result (text.new ≡ text.old ++ unshown_text plan.now findings.now others.now) }
{
    let count = findings.len() + count_unshown(others);
    if count == 0 {
        return Ok(());
    }
    write_unshown_lines(alloc, text, plan, findings, others, count)
}

fn verdict_of(findings: &[Finding], others: &[LoadFinding]) -> Verdict
    ensures { result ≡ load_verdict findings.now others.now }
{
    if findings.is_empty() && others.is_empty() {
        Verdict::Done
    } else {
        Verdict::Findings
    }
}

/// What is written of what a plan asks of its bus, with the verdict.
pub fn load_report(alloc: Global, plan: &Plan) -> ReportResult
    ensures { IfOk result (λ report. IsLoadReport plan.now (timing_of plan.now) report.0 report.1) }
{
    let mut text = TextBuffer::new(alloc);
    let answer = PlanAnswer::new(alloc, plan)?;
    let Some(load) = &answer.load else {
        text.word("refused plan NoTiming\n")?;
        return Ok((text, Verdict::Refused));
    };
    let findings = answer.findings.as_slice();
    let others = load.findings.as_slice();
    if shows_times(findings) {
        write_loads(&mut text, plan, &load.loads, load.delays.as_slice())?;
        write_unshown(alloc, &mut text, plan, findings, others)?;
        return Ok((text, verdict_of(findings, others)));
    }
    write_findings(alloc, &mut text, plan, findings, others)?;
    Ok((text, Verdict::Findings))
}
