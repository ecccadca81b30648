//! What the follow command keeps of a log, and what it reports of a frame.
ghost use Rattle.std.specs.Prelude.{◌≡◌, ◌+◌, ◌||◌, true, ◌^◌, ◌<◌, ◌≤◌, length, IfOk, OnOk};
ghost use Rattle.j39_log.specs.PairListeners.{AreAllInRange};
ghost use Rattle.j39_log.specs.LineCounting.{no_lines};
ghost use Rattle.j39_id.specs.FrameMeaning.{cannot_claim, claims_address};
ghost use Rattle.j39_follow.specs.Contests.{frames_of};
ghost use Rattle.j39_follow.specs.FollowText.{FollowedPast, lines_with, nothing_followed};
ghost use Rattle.j39_follow.specs.LogLines.{moment_of};
ghost use Rattle.j39_follow.specs.inside.Contesting.{AreContests};
ghost use Rattle.j39_follow.specs.inside.Exchanging.{AreExchanges};
ghost use Rattle.j39_follow.specs.inside.FrameWriting.{WritesFrame};
ghost use Rattle.j39_follow.specs.inside.Hearing.{HaveHeardSince};
ghost use Rattle.j39_follow.specs.inside.FollowedSoFar.{IsFollowed, IsKnownSoFar, IsReported, IsSameButWritten};
ghost use Rattle.j39_follow.specs.inside.FollowedSoFar.{IsSameLog, RecallsPast, Remembers};
ghost use Rattle.j39_follow.specs.inside.Recounting.{Knows};
ghost use Rattle.j39_follow.specs.inside.Reporting.{front_of};
ghost use Rattle.j39_follow.specs.inside.Tallies.{IsTally};

use crate::address::changed_hands::{begin_anew, replaced};
use crate::address::contests::Contests;
use crate::address::directory::Directory;
use crate::address::taking::taken;
use crate::flow::tally::Tally;
use crate::frame_report::report_frame;
use crate::line::moment::moment;
use crate::line::stamp::Stamp;
use crate::message::Sort;
use crate::pair::heard_pairs::HeardPairs;
use crate::request::acknowledgement::{acknowledges, asker_or_source};
use crate::request::exchanges::Exchanges;
use j39_id::{Frame, cannot_claim, claims_address};
use j39_log::Groups;
use j39_network::Plan;
use j39_text::{TextBuffer, WriteResult};
use std::alloc::{AllocError, Global};

/// What the follow command keeps of a log.
#[derive(Drop)]
pub(crate) struct UnitReport {
    pub alloc: Global,
    // Whether frames of which nothing else is written have a line of their own.
    pub all_frames: bool,
    // The interface of the first line that names one: the log's.
    pub interface: Option<Vec<u8>>,
    // 8 KB, so it isn't kept on the stack.
    pub tally: Box<Tally>,
    pub exchanges: Exchanges,
    pub directory: Directory,
    contests: Contests,
    pairs: HeardPairs,
}

impl UnitReport {
    pub fn new(alloc: Global, plan: &Plan, all_frames: bool) -> Result<Self, AllocError>
        ensures all_frames { IfOk result (λ report. report.all_frames ≡ all_frames) }
        ensures past { IfOk result (λ report. RecallsPast plan.now report no_lines nothing_followed) }
    {
        Ok(UnitReport {
            alloc,
            all_frames,
            interface: None,
            tally: Box::new(alloc, Tally::new())?,
            exchanges: Exchanges::new(alloc)?,
            directory: Directory::new(alloc, plan)?,
            contests: Contests::new(alloc)?,
            pairs: HeardPairs::new(alloc),
        })
    }

    // Writes a frame of which an address may be contested.
    #[inline(never)]
    fn write_taken(
        &mut self,
        groups: &Groups<'_>,
        stamp: Stamp<'_>,
        frame: &Frame,
        text: &mut TextBuffer,
    ) -> Result<(Sort, Option<Sort>), AllocError>
        ensures stays { IsSameButWritten self.old self.new }
        ensures written { IfOk result (λ sorts. WritesFrame
            (IsKnownSoFar groups.now self.old.directory self.old.contests (moment_of stamp.entry.time.now)) groups.now
            self.old.all_frames (front_of stamp.entry) frame.now
            sorts self.old.pairs self.new.pairs self.old.exchanges self.new.exchanges text.old text.new) }
    {
        let parties = taken(
            self.directory.parties(),
            &self.contests,
            frame.ident,
            asker_or_source(groups.plan(), frame),
            moment(stamp.time),
        );
        report_frame(
            self.all_frames,
            text,
            &mut self.pairs,
            &mut self.exchanges,
            groups,
            &parties,
            stamp,
            frame,
        )
    }

    // Writes and counts a frame whose claim was noted.
    fn report(
        &mut self,
        groups: &Groups<'_>,
        stamp: Stamp<'_>,
        frame: &Frame,
        text: &mut TextBuffer,
    ) -> WriteResult
        ensures directory { self.new.directory ≡ self.old.directory }
        ensures contests { self.new.contests ≡ self.old.contests }
        ensures same { IsSameLog self.old self.new }
        ensures reported { OnOk result ((past : FollowedPast)
            → Knows groups.now self.old.directory (frames_of (lines_with past frame.now stamp.entry.time.now))
            → AreContests groups.now self.old.contests (lines_with past frame.now stamp.entry.time.now)
            → HaveHeardSince groups.now self.old.pairs past.seen → AreAllInRange past.seen
            → IsTally groups.now self.old.tally.value past.sent
            → AreExchanges groups.now self.old.exchanges past.events → length past.sent + 2 < 2 ^ 64
            → length past.events + 3 < 2 ^ 64
            → IsReported groups.now self.old self.new past stamp.entry frame.now text.old text.new) }
    {
        if acknowledges(groups.plan(), frame) || !self.contests.are_calm(frame.ident, stamp.time) {
            let (sort, ended) = self.write_taken(groups, stamp, frame, text)?;
            self.tally.count_frame(groups, sort, ended);
            return Ok(());
        }
        let (sort, ended) = report_frame(
            self.all_frames,
            text,
            &mut self.pairs,
            &mut self.exchanges,
            groups,
            self.directory.parties(),
            stamp,
            frame,
        )?;
        self.tally.count_frame(groups, sort, ended);
        Ok(())
    }

    // Reports a frame that reports of an address: it may begin and end contests, and the pairs of which an address
    // changes hands begin anew.
    fn follow_claim(
        &mut self,
        groups: &Groups<'_>,
        stamp: Stamp<'_>,
        frame: &Frame,
        earlier: u64,
        text: &mut TextBuffer,
    ) -> WriteResult
        requires { (claims_address frame.now || cannot_claim frame.now) ≡ true }
        ensures same { IsSameLog self.old self.new }
        ensures followed { OnOk result ((past : FollowedPast)
            → Remembers groups.now self.old past.seen past.timed past.sent past.events
            → length past.seen ≤ 2 ^ 62 → length past.seen ≡ earlier
            → IsFollowed groups.now self.old self.new past stamp.entry frame.now text.old text.new) }
    {
        let before = self.directory.all_parties();
        let taken = replaced(self.directory.holder(frame.ident.sa), frame);
        self.contests
            .hear(groups.plan(), &self.directory, frame, moment(stamp.time))?;
        self.directory.hear(groups.plan(), frame, earlier);
        self.report(groups, stamp, frame, text)?;
        let after = &self.directory.parties().all;
        begin_anew(&mut self.pairs, &before, after, taken);
        Ok(())
    }

    /// Reports a frame, which so many came before, and keeps what it says.
    pub fn follow(
        &mut self,
        groups: &Groups<'_>,
        stamp: Stamp<'_>,
        frame: &Frame,
        earlier: u64,
        text: &mut TextBuffer,
    ) -> WriteResult
        ensures same { IsSameLog self.old self.new }
        ensures followed { OnOk result ((past : FollowedPast)
            → Remembers groups.now self.old past.seen past.timed past.sent past.events
            → length past.seen ≤ 2 ^ 62 → length past.seen ≡ earlier
            → IsFollowed groups.now self.old self.new past stamp.entry frame.now text.old text.new) }
    {
        if claims_address(frame) {
            return self.follow_claim(groups, stamp, frame, earlier, text);
        }
        if cannot_claim(frame) {
            return self.follow_claim(groups, stamp, frame, earlier, text);
        }
        self.report(groups, stamp, frame, text)
    }
}
