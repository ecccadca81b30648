//! What is written for a plan.
ghost use Rattle.std.specs.Prelude.{◌≡◌, ◌++◌, ℕ, List, OnOk, IfOk};
ghost use Rattle.j39_plan_text.specs.CheckText.{IsReport, findings_text, listed_text, ok_line};
ghost use Rattle.j39_answer.specs.PlanAnswers.{IsPlanAnswer};

use crate::certificate::clean_plans_are_certified;
use crate::finding_lines::write_lines;
use crate::load_lines::write_load_findings;
use j39_answer::PlanAnswer;
use j39_findings::{Finding, clean_where_none};
use j39_load::LoadFinding;
use j39_network::Plan;
use j39_stream::Verdict;
use j39_text::{ReportResult, TextBuffer, WriteResult};
use std::alloc::{AllocError, Global};

#[tactic(auto, unfolding(crate::specs::CheckText::ok_line))]
fn write_ok(text: &mut TextBuffer, plan: &Plan) -> WriteResult
    ensures { OnOk result (text.new ≡ text.old ++ ok_line plan.now) }
{
    text.field("ok ", plan.units.len())?;
    text.field(" units ", plan.groups.len())?;
    text.field(" groups ", plan.flows.len())?;
    text.word(" flows\n")
}

#[tactic(auto, unfolding(crate::specs::CheckText::listed_text))]
fn write_found(
    alloc: Global,
    text: &mut TextBuffer,
    plan: &Plan,
    findings: &[Finding],
    others: &[LoadFinding],
) -> WriteResult
    ensures { OnOk result (text.new ≡ text.old ++ listed_text plan.now findings.now others.now) }
{
    write_lines(alloc, text, plan, findings, 1, 16)?;
    write_load_findings(text, others, 16, 19)?;
    write_lines(alloc, text, plan, findings, 19, 20)?;
    write_load_findings(text, others, 20, 21)?;
    write_lines(alloc, text, plan, findings, 21, 29)?;
    write_load_findings(text, others, 31, 32)
}

#[tactic(auto, unfolding(crate::specs::CheckText::findings_text))]
pub(super) fn write_findings(
    alloc: Global,
    text: &mut TextBuffer,
    plan: &Plan,
    findings: &[Finding],
    others: &[LoadFinding],
) -> WriteResult
    ensures { OnOk result (text.new ≡ text.old ++ findings_text plan.now findings.now others.now) }
{
    write_found(alloc, text, plan, findings, others)?;
    text.field("findings ", findings.len() + others.len())?;
    text.end_line()
}

/// Writes everything that is wrong with a plan, or that nothing is.
pub fn write_check(
    alloc: Global,
    text: &mut TextBuffer,
    plan: &Plan,
    answer: &PlanAnswer,
) -> Result<Verdict, AllocError>
    requires { IsPlanAnswer plan.now answer.now }
    ensures { IfOk result (λ verdict. (report : List ℕ) × IsReport plan.now report verdict
        × (text.new ≡ text.old ++ report)) }
{
    let others = answer.load_findings();
    if answer.findings.is_empty() && others.is_empty() {
        clean_where_none();
        clean_plans_are_certified();
        write_ok(text, plan)?;
        return Ok(Verdict::Done);
    }
    write_findings(alloc, text, plan, &answer.findings, others)?;
    Ok(Verdict::Findings)
}

/// What is written of everything that is wrong with a plan, or that nothing is, with the verdict.
pub fn check_report(alloc: Global, plan: &Plan) -> ReportResult
    ensures { IfOk result (λ report. IsReport plan.now report.0 report.1) }
{
    let answer = PlanAnswer::new(alloc, plan)?;
    let mut text = TextBuffer::new(alloc);
    let verdict = write_check(alloc, &mut text, plan, &answer)?;
    Ok((text, verdict))
}
