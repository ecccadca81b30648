//! What is written of a log that is audited.
ghost use Rattle.std.specs.Prelude.{◌≡◌, true, false};
ghost use Rattle.std.specs.List.{list_any};
ghost use Rattle.j39_app.specs.AuditAnswers.{hinders, is_hindered, is_hindering};
ghost use Rattle.j39_audit.specs.AuditText.{IsAudit};
ghost use Rattle.j39_plan_text.specs.CheckText.{IsReport};
ghost use Rattle.j39_stream.specs.CommandEnds.{AnswersWhole, IsOfAny, PutsText};
ghost use Rattle.j39_stream.specs.Streams.{log_limits};

use crate::{CommandResult, Sink, Source, audit_text, put_all};
use j39_findings::{Finding, check};
use j39_network::Plan;
use j39_plan_text::check_report;
use std::alloc::Global;

// Whether a finding of this number hinders an audit.
fn is_hindering(number: u8) -> bool
    ensures { result ≡ is_hindering number }
{
    number <= 12 || number == 24 || number >= 26
}

// Whether one of these findings does.
fn are_hindering(findings: &[Finding]) -> bool
    ensures { result ≡ list_any hinders findings.now }
{
    findings
        .iter()
        .any(|finding| is_hindering(finding.number()))
}

fn put_findings<W: Sink>(alloc: Global, plan: &Plan, sink: &mut W) -> CommandResult
    ensures { PutsText (IsReport plan.now) W.state sink.old sink.new result }
{
    let (text, verdict) = check_report(alloc, plan)?;
    put_all(sink, text.as_slice())?;
    Ok(verdict)
}

/// Writes which premises of a plan a log refutes. Where addresses or identifiers of the plan aren't what they should be
/// (findings F1 to F12, F24, F26 to F28) it writes what the check command does, and reads nothing.
#[inline(never)]
pub fn audit_planned<S: Source, W: Sink>(
    alloc: Global,
    plan: &Plan,
    part: bool,
    stamps: u64,
    quiet: Option<u64>,
    log: &mut S,
    sink: &mut W,
) -> CommandResult
    ensures hindered { is_hindered plan.now ≡ true → PutsText (IsReport plan.now) W.state sink.old sink.new result }
    ensures unread { is_hindered plan.now ≡ true → log.new ≡ log.old }
    ensures audited { is_hindered plan.now ≡ false → AnswersWhole (IsAudit plan.now part stamps quiet)
        (IsOfAny (IsAudit plan.now part stamps quiet)) log_limits
        (S.state log.old) (S.state log.new) W.state sink.old sink.new result }
{
    let findings = check(alloc, plan)?;
    if are_hindering(findings.as_slice()) {
        put_findings(alloc, plan, sink)
    } else {
        audit_text(alloc, plan, part, stamps, quiet, log, sink)
    }
}
