//! What the audit command writes.
ghost use Rattle.std.specs.Prelude.{◌≡◌, IfOk};
ghost use Rattle.j39_audit.specs.AuditText.{IsAudit};
ghost use Rattle.j39_audit.specs.Gaps.{quiet_by};
ghost use Rattle.j39_audit.specs.Responses.{AreResponses};
ghost use Rattle.j39_audit.specs.Settings.{AreMoving};
ghost use Rattle.j39_audit.specs.declared.by_load.Bound.TheVariants.{Bus};
ghost use Rattle.j39_audit.specs.inside.Auditing.{IsAuditReport};
ghost use Rattle.j39_stream.specs.CommandEnds.{AnswersWhole, IsOfAny, PutsText};
ghost use Rattle.j39_stream.specs.Streams.{log_limits};

use crate::audit_log::AuditLog;
use crate::basis::{Basis, moving_of, sent_of};
use crate::by_load::{Bound, responses_of};
use crate::gaps::quiet_by;
use crate::queue_times::queue_times_of;
use crate::reading::read_log;
use crate::summary::write_audit;
use j39_network::Plan;
use j39_stream::{CommandResult, Sink, Source, Verdict, put_all};
use j39_text::{ReportResult, TextBuffer};
use std::alloc::Global;

// What is written of a log that was read, with the verdict.
fn report(alloc: Global, log: &AuditLog<'_>) -> ReportResult
    ensures { IfOk result (λ r. IsAuditReport log.now r.0 r.1) }
{
    let mut text = TextBuffer::new(alloc);
    let count = write_audit(&mut text, log)?;
    if count == 0 {
        Ok((text, Verdict::Done))
    } else {
        Ok((text, Verdict::Findings))
    }
}

// Writes it.
fn put_report<W: Sink>(alloc: Global, log: &AuditLog<'_>, sink: &mut W) -> CommandResult
    ensures { PutsText (IsAuditReport log.now) W.state sink.old sink.new result }
{
    let (text, verdict) = report(alloc, log)?;
    put_all(sink, text.as_slice())?;
    Ok(verdict)
}

// Writes it of a log that is read by this.
fn audit_by<S: Source, W: Sink>(
    alloc: Global,
    basis: Basis<'_>,
    quiet: Option<u64>,
    source: &mut S,
    sink: &mut W,
) -> CommandResult
    requires quiet { basis.quiet ≡ quiet_by basis.plan.now quiet }
    requires moving { AreMoving basis.plan.now basis.moving.now }
    requires responses { AreResponses basis.plan.now basis.responses.now }
    requires bus { basis.bound ≡ Bus }
    ensures { AnswersWhole (IsAudit basis.entry.plan.now basis.entry.part basis.entry.stamps quiet)
        (IsOfAny (IsAudit basis.entry.plan.now basis.entry.part basis.entry.stamps quiet)) log_limits
        (S.state source.old) (S.state source.new) W.state sink.old sink.new result }
{
    let mut log = AuditLog::new(alloc, basis)?;
    read_log(&mut log, source)?;
    put_report(alloc, &log, sink)
}

/// Writes which premises of a plan a log of its bus refutes, of which unit or flow, and at which lines, once the log
/// was read to its end. A gap is so many milliseconds without a frame, or as the plan has it.
pub fn audit_text<S: Source, W: Sink>(
    alloc: Global,
    plan: &Plan,
    part: bool,
    stamps: u64,
    quiet: Option<u64>,
    source: &mut S,
    sink: &mut W,
) -> CommandResult
    ensures { AnswersWhole (IsAudit plan.now part stamps quiet)
        (IsOfAny (IsAudit plan.now part stamps quiet)) log_limits
        (S.state source.old) (S.state source.new) W.state sink.old sink.new result }
{
    let moving = moving_of(alloc, plan)?;
    let sent = sent_of(alloc, plan)?;
    let responses = responses_of(alloc, plan)?;
    let queue_times = queue_times_of(alloc, plan)?;
    let basis = Basis {
        plan,
        moving: &moving,
        sent: &sent,
        part,
        stamps,
        quiet: quiet_by(plan, quiet),
        responses: &responses,
        queue_times: &queue_times,
        bound: Bound::Bus,
    };
    audit_by(alloc, basis, quiet, source, sink)
}
