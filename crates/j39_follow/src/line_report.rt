//! What the follow command reports of the lines of a log.
ghost use Rattle.std.specs.Prelude.{◌≡◌, ◌^◌, ◌++◌, ℕ, List, IfOk, OnOk};
ghost use Rattle.std.specs.Option.{option_copied};
ghost use Rattle.j39_log.specs.LineCounting.{AreWithin, IsLineMore};
ghost use Rattle.j39_follow.specs.FollowText.{AreUnitLines, FollowedPast, FollowsFrame};
ghost use Rattle.j39_follow.specs.FollowText.{behind_reports, follow_counts_line, frames_seen};
ghost use Rattle.j39_follow.specs.LogLines.{interface_behind};
ghost use Rattle.j39_follow.specs.inside.FollowedSoFar.{LeadsToPast, RecallsPast, interface_of};

use crate::flow::endings::write_endings;
use crate::flow::needs::write_needs;
use crate::line::log_line::{interface, is_elsewhere, read_part, time_text};
use crate::line::stamp::Stamp;
use crate::request::request_ends::write_requests;
use crate::unit_report::UnitReport;
use j39_id::{Frame, read_frame};
use j39_log::{Groups, LineCounts, LogReport};
use j39_network::Plan;
use j39_text::{TextBuffer, WriteResult};
use std::alloc::{AllocError, Global};

fn copied(alloc: Global, name: &[u8]) -> Result<Vec<u8>, AllocError>
    ensures { IfOk result (λ copy. copy.items ≡ name.now) }
{
    let mut copy = Vec::new(alloc);
    copy.extend_from_slice(name)?;
    Ok(copy)
}

/// Keeps the interface that a line names, if none was named before.
pub fn keep_interface(
    alloc: Global,
    kept: &mut Option<Vec<u8>>,
    named: Option<&[u8]>,
) -> Result<(), AllocError>
    ensures { OnOk result (interface_of kept.new
        ≡ interface_behind (interface_of kept.old) (option_copied named.entry)) }
{
    if kept.is_some() {
        return Ok(());
    }
    let Some(name) = named else {
        return Ok(());
    };
    *kept = Some(copied(alloc, name)?);
    Ok(())
}

/// The interface that is kept.
pub fn kept_interface(kept: &Option<Vec<u8>>) -> Option<&[u8]>
    ensures { option_copied result ≡ interface_of kept.now }
{
    match kept {
        Some(name) => Some(name.as_slice()),
        None => None,
    }
}

// Writes the counts of lines.
#[tactic(auto, unfolding(crate::specs::FollowText::follow_counts_line, j39_log::specs::LineCounting::counts_text))]
fn write_counts(counts: &LineCounts, text: &mut TextBuffer) -> WriteResult
    ensures { OnOk result (text.new ≡ text.old
        ++ follow_counts_line counts.now.frames counts.now.skipped counts.now.bad counts.now.elsewhere) }
{
    counts.write(text)?;
    text.field(" elsewhere ", counts.elsewhere)?;
    text.end_line()
}

impl UnitReport {
    // Reports the frame of a line that names this interface.
    fn follow_frame(
        &mut self,
        groups: &Groups<'_>,
        stamp: Stamp<'_>,
        named: Option<&[u8]>,
        frame: &Frame,
        counts: &mut LineCounts,
        text: &mut TextBuffer,
    ) -> WriteResult
        requires { AreWithin counts.old (2 ^ 62) }
        ensures frame { OnOk result ((past : FollowedPast) → RecallsPast groups.now self.old counts.old past
            → stamp.entry.number ≡ past.number
            → LeadsToPast (FollowsFrame groups.now self.old.all_frames past stamp.entry.time.now
            (option_copied named.entry)
            frame.now)
            groups.now self.new counts.new past.number text.old text.new) }
        ensures counted { OnOk result (IsLineMore counts.old counts.new) }
        ensures all_frames { self.new.all_frames ≡ self.old.all_frames }
    {
        self.follow(groups, stamp, frame, counts.frames, text)?;
        keep_interface(self.alloc, &mut self.interface, named)?;
        counts.frames += 1;
        Ok(())
    }

    // Writes what was sent, where each unit stands, how often each request was asked and answered, what met each need,
    // and how many lines there are of each sort.
    fn finish(&self, plan: &Plan, counts: &LineCounts, text: &mut TextBuffer) -> WriteResult
        ensures { OnOk result ((past : FollowedPast) → RecallsPast plan.now self.now counts.now past → (units : List ℕ)
            × AreUnitLines plan.now (frames_seen past.seen) 0 plan.now.units.items units
            × (text.new ≡ text.old ++ behind_reports plan.now past units)) }
    {
        write_endings(text, plan, &*self.tally, self.directory.holders())?;
        write_requests(text, plan, &self.exchanges)?;
        write_needs(text, plan, &*self.tally)?;
        write_counts(counts, text)
    }
}

impl LogReport for UnitReport {
    ghost use Rattle.j39_follow.specs.FollowText.{IsFollowedLog};
    ghost use Rattle.j39_follow.specs.inside.FollowedSoFar.{HasFollowedLines};
    ghost use Rattle.j39_follow.specs.inside.LinesFollowed.{followed_lines_end, long_line_followed};

    ghost has_reported = { λ report plan counts ls reports. HasFollowedLines plan report counts ls reports };

    ghost is_log_text = { λ report plan log text. IsFollowedLog plan report.all_frames log text };

    fn read_line(
        &mut self,
        groups: &Groups<'_>,
        number: u64,
        line: &[u8],
        counts: &mut LineCounts,
        text: &mut TextBuffer,
    ) -> WriteResult {
        let part = read_part(line);
        let read = read_frame(part);
        let named = interface(part, &read);
        if is_elsewhere(kept_interface(&self.interface), part, &read, named) {
            counts.elsewhere += 1;
            return Ok(());
        }
        match read {
            Ok(frame) => {
                let time = time_text(line);
                self.follow_frame(groups, Stamp { number, time }, named, &frame, counts, text)
            }
            Err(error) => {
                counts.pass_over(error);
                Ok(())
            }
        }
    }

    fn write_end(
        &self,
        groups: &Groups<'_>,
        counts: &LineCounts,
        text: &mut TextBuffer,
    ) -> WriteResult {
        self.finish(groups.plan(), counts, text)
    }

    ghost long_line = { λ report plan counts ls reports read. long_line_followed plan report counts ls reports read };

    ghost ends = { λ report plan counts ls reports read. followed_lines_end plan report counts ls reports read };
}
