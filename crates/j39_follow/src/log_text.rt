//! What the follow command writes.
ghost use Rattle.j39_follow.specs.FollowText.{IsFollowText};
ghost use Rattle.j39_stream.specs.CommandEnds.{AnswersInPieces};
ghost use Rattle.j39_stream.specs.Streams.{log_limits};

use crate::unit_report::UnitReport;
use j39_log::report_log;
use j39_network::Plan;
use j39_stream::{CommandResult, Sink, Source};
use std::alloc::Global;

/// Writes who sent what in a log, by the claims of the log itself: each claim, each request with the request of the
/// plan that it asks, in a plan with requests each acknowledgement, and each frame or message of a planned group
/// with the unit that is taken to hold its source and the flow that it fits, with the number of its line and its
/// time; at the end how often each flow was sent, what met each need, how often each request was asked, answered
/// and refused, and where each unit stands. Where all frames are asked for, each frame of which nothing else is
/// written has a line of its own.
///
/// The lines of the log are those that `read_frame` reads. Behind the frame of a line may stand its direction, and the
/// word before the frame is its interface: lines of another interface than the log's first are counted and passed over.
/// Of a plan with a group that has no layout, or whose number is no group's, the first such group is named, and the log
/// isn't read.
#[inline(never)]
pub fn follow_text<S: Source, W: Sink>(
    alloc: Global,
    plan: &Plan,
    all_frames: bool,
    source: &mut S,
    sink: &mut W,
) -> CommandResult
    ensures { AnswersInPieces (IsFollowText plan.now all_frames) log_limits (S.state source.old)
        (S.state source.new) W.state sink.old sink.new result }
{
    let mut report = UnitReport::new(alloc, plan, all_frames)?;
    report_log(alloc, plan, &mut report, source, sink)
}
