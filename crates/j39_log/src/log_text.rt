//! What the read command writes.
ghost use Rattle.j39_log.specs.ReadText.{IsReadText};
ghost use Rattle.j39_stream.specs.CommandEnds.{AnswersInPieces};
ghost use Rattle.j39_stream.specs.Streams.{log_limits};

use crate::address_report::AddressReport;
use crate::reported_log::report_log;
use j39_network::Plan;
use j39_stream::{CommandResult, Sink, Source};
use std::alloc::Global;

/// Writes what a log says of the groups of a plan: a report for each frame of a planned group and for each message that
/// transport packets carry, and how many lines were read as frames, skipped and bad.
///
/// The lines of the log are those that `read_frame` reads. Of a plan with a group that has no layout, or whose number
/// is no group's, the first such group is named, and the log isn't read.
#[inline(never)]
pub fn read_text<S: Source, W: Sink>(
    alloc: Global,
    plan: &Plan,
    source: &mut S,
    sink: &mut W,
) -> CommandResult
    ensures { AnswersInPieces (IsReadText plan.now) log_limits (S.state source.old)
        (S.state source.new) W.state sink.old sink.new result }
{
    let mut report = AddressReport::new(alloc);
    report_log(alloc, plan, &mut report, source, sink)
}
