//! What is written of a log, whatever reports its lines.
ghost use Rattle.std.specs.Prelude.{◌≡◌, [], IfOk};
ghost use Rattle.j39_log.specs.LineCounting.{no_lines};
ghost use Rattle.j39_log.specs.ReadText.{IsRefused, refused_plan_line};
ghost use Rattle.j39_log.specs.ReportedLogs.{IsTextFor};
ghost use Rattle.j39_stream.specs.CommandEnds.{AnswersInPieces, PutsText};
ghost use Rattle.j39_stream.specs.Streams.{log_limits};

use crate::catalog::CatalogError;
use crate::groups::Groups;
use crate::line_counts::LineCounts;
use crate::log_reader::LogReader;
use crate::log_report::LogReport;
use j39_network::Plan;
use j39_stream::{CommandResult, Fault, LOG_LIMITS, Sink, Source, Verdict, put_all, read_lines};
use j39_text::{TextBuffer, group_label};
use std::alloc::{AllocError, Global};

// The line of a refused plan.
#[tactic(auto, unfolding(crate::specs::ReadText::refused_plan_line))]
fn refusal(alloc: Global, plan: &Plan, group: usize) -> Result<TextBuffer, AllocError>
    ensures { IfOk result (λ text. text ≡ refused_plan_line plan.now group) }
{
    let mut text = TextBuffer::new(alloc);
    text.word("refused plan BadGroup ")?;
    text.word(group_label(plan, group))?;
    text.end_line()?;
    Ok(text)
}

// Writes why no log can be read with the plan: by this group.
fn refuse<W: Sink>(alloc: Global, plan: &Plan, group: usize, sink: &mut W) -> CommandResult
    ensures { PutsText (IsRefused plan.now group) W.state sink.old sink.new result }
{
    let text = refusal(alloc, plan, group)?;
    put_all(sink, text.as_slice())?;
    Ok(Verdict::Refused)
}

/// Writes what this reports of a log by the groups of a plan, of each piece of the log before the next one is read.
///
/// Of a plan with a group that has no layout, or whose number is no group's, the first such group is named, and the log
/// isn't read.
pub fn report_log<R: LogReport, S: Source, W: Sink>(
    alloc: Global,
    plan: &Plan,
    report: &mut R,
    source: &mut S,
    sink: &mut W,
) -> CommandResult
    requires { R.has_reported report.old plan.now no_lines [] [] }
    ensures { AnswersInPieces (IsTextFor plan.now (R.is_log_text report.old plan.now)) log_limits
        (S.state source.old) (S.state source.new) W.state sink.old sink.new result }
{
    match Groups::new(alloc, plan) {
        Ok(groups) => {
            let mut reader = LogReader {
                groups: &groups,
                report,
                counts: LineCounts::new(),
                number: 0,
                text: TextBuffer::new(alloc),
            };
            read_lines(LOG_LIMITS, &mut reader, source, sink)
        }
        Err(CatalogError::Memory) => Err(Fault::Memory),
        Err(CatalogError::BadGroup(group)) => refuse(alloc, plan, group, sink),
    }
}
