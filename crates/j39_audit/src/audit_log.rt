//! What an audit keeps of a log.
ghost use Rattle.std.specs.Prelude.{◌≡◌, ◌≤◌, ◌<◌, ◌^◌, ◌++◌, nat_lt, ℕ, List, [], Option, IfOk, IfSome, OnOk};
ghost use Rattle.std.specs.Option.{option_copied};
ghost use Rattle.j39_id.specs.Lines.{Line, yields};
ghost use Rattle.j39_log.specs.LineCounting.{AreWithin, IsLineMore};
ghost use Rattle.j39_audit.specs.AuditPasts.{AuditPast, bad_line};
ghost use Rattle.j39_audit.specs.AuditText.{is_of_asking, is_of_broadcasts, is_of_load};
ghost use Rattle.j39_audit.specs.AuditPasts.{passed_by, past_again, past_with_again};
ghost use Rattle.j39_audit.specs.AuditText.{is_of_moments, is_of_sessions, mark_by_bus};
ghost use Rattle.j39_audit.specs.AuditPasts.{skipped_line, with_again};
ghost use Rattle.j39_audit.specs.Counting.{Noted};
ghost use Rattle.j39_audit.specs.MessageStreams.{nothing_sighted, sighted_behind};
ghost use Rattle.j39_audit.specs.Pauses.{unclear_behind};
ghost use Rattle.j39_audit.specs.Settings.{Settings};
ghost use Rattle.j39_audit.specs.inside.Auditing.{AccordsWith, AreAllNear, HasAudited, FollowsNewFrame};
ghost use Rattle.j39_audit.specs.inside.Auditing.{HasAuditedWhole, IsWithinLines, RecallsAudit, TakesFrameLine};
ghost use Rattle.j39_audit.specs.inside.Auditing.{TakesFrameNew, TakesLine};
ghost use Rattle.j39_audit.specs.inside.Auditing.{AreOnlyTimesNew, RecallsTimes, tallied, times_behind};
ghost use Rattle.j39_audit.specs.inside.Recalling.{known_by, settings_of};

use crate::again::{TakenFrame, is_again, taken_frame};
use crate::announcements::{Announcement, announcement_in};
use crate::asking::Asking;
use crate::basis::Basis;
use crate::broadcasts::BegunBroadcasts;
use crate::frame_marks::{note_if, take_frame};
use crate::gaps::ends_gap;
use crate::known::Known;
use crate::log_steps::{take_break, take_packet};
use crate::mark::{Mark, Word, make_mark};
use crate::moments::{Moments, Seen};
use crate::pauses::{Ending, ending_of};
use crate::session_marks::SessionMarks;
use crate::tally::{MarkTally, Occurrences};
use crate::times::{begins_anew, breaks, line_time, newest_behind};
use crate::word_sorts::{
    is_of_asking, is_of_broadcasts, is_of_load, is_of_moments, is_of_sessions, mark_by_bus,
};
use j39_follow::{interface, is_elsewhere, keep_interface, kept_interface, read_part, time_text};
use j39_id::{Cut, Frame, LineError, read_frame};
use j39_log::{LineCounts, transport_packet};
use std::alloc::{AllocError, Global};

/// What an audit keeps of a log.
#[derive(Drop)]
pub(crate) struct AuditLog<'a> {
    pub alloc: Global,
    pub basis: Basis<'a>,
    // The number of the last line that was read, counted from 1.
    pub number: u64,
    // The interface of the first line that names one: the log's.
    pub interface: Option<Vec<u8>>,
    pub newest: Option<u64>,
    // The time of the frame before, and this frame, where no line was skipped or bad since.
    pub before: Option<u64>,
    pub taken: Option<TakenFrame>,
    // How many frames stand there again.
    pub again: u64,
    pub known: Known,
    pub tally: MarkTally,
    // What times report by the bus, and by load.
    pub moments: Moments,
    pub by_load: Moments,
    pub asking: Asking,
    pub broadcasts: BegunBroadcasts,
    pub sessions: SessionMarks,
    pub counts: LineCounts,
}

// Whether a frame was read.
fn has_frames(counts: &LineCounts) -> bool
    ensures { result ≡ nat_lt 0 counts.now.frames }
{
    counts.frames > 0
}

impl<'a> AuditLog<'a> {
    pub fn new(alloc: Global, basis: Basis<'a>) -> Result<Self, AllocError>
        ensures settings { IfOk result (λ log. settings_of log.basis ≡ settings_of basis.entry) }
        ensures nothing { IfOk result (λ log. HasAudited (settings_of log.basis) log []) }
        ensures within { IfOk result (λ log. IsWithinLines log 0) }
    {
        let known = Known::new(alloc, &basis)?;
        let moments = Moments::new(alloc)?;
        let by_load = Moments::new(alloc)?;
        let asking = Asking::new(alloc, &basis)?;
        let broadcasts = BegunBroadcasts::new(alloc, &basis)?;
        Ok(AuditLog {
            alloc,
            basis,
            number: 0,
            interface: None,
            newest: None,
            before: None,
            taken: None,
            again: 0,
            known,
            tally: MarkTally::new(alloc),
            moments,
            by_load,
            asking,
            broadcasts,
            sessions: SessionMarks::new(alloc),
            counts: LineCounts::new(),
        })
    }

    /// What was found of a mark.
    #[tactic(auto, unfolding(crate::specs::inside::Auditing::tallied))]
    pub fn reported(&self, mark: Mark) -> Occurrences
        ensures { result ≡ tallied self.now mark }
    {
        if is_of_moments(mark.word) {
            self.moments.untimely.reported(mark)
        } else if is_of_load(mark.word) {
            self.by_load.untimely.reported(mark_by_bus(mark))
        } else if is_of_asking(mark.word) {
            self.asking.deaf.reported(mark)
        } else if is_of_broadcasts(mark.word) {
            self.broadcasts.late.reported(mark)
        } else if is_of_sessions(mark.word) {
            self.sessions.told.reported(mark)
        } else {
            self.tally.reported(mark)
        }
    }

    // Takes what times report of a frame of this time that was noted, just before which a gap ends and times begin
    // anew, or they don't, at which these pauses end, and which announces this.
    fn take_times(
        &mut self,
        gap: bool,
        anew: bool,
        time: Option<u64>,
        frame: &Frame,
        ending: Ending,
        announced: Option<Announcement>,
    ) -> Result<(), AllocError>
        requires time { IfSome time (λ t. t < 2 ^ 61) }
        requires near { AreAllNear self.old }
        ensures near { OnOk result (AreAllNear self.new) }
        ensures kept { AreOnlyTimesNew self.old self.new }
        ensures times { OnOk result ((past : AuditPast) (noted : List Noted)
            → RecallsTimes (settings_of self.old.basis) self.old past
            → self.old.tally.sighting ≡ sighted_behind nothing_sighted noted
            → self.old.tally.unclear.items ≡ unclear_behind [] noted
            → RecallsTimes (settings_of self.old.basis) self.new
            (times_behind (settings_of self.old.basis)
            (known_by self.old.known) gap anew time frame.now self.old.number noted ending announced past)) }
    {
        let seen = Seen {
            sighting: self.tally.sighting,
            unclear: self.tally.unclear.as_slice(),
            ending,
        };
        self.moments
            .look(&self.basis, gap, anew, time, frame, seen, self.number)?;
        self.by_load.look(
            &self.basis.by_load(),
            gap,
            anew,
            time,
            frame,
            seen,
            self.number,
        )?;
        let unit = self.tally.sighting.unit;
        self.asking
            .take_sign(&self.basis, unit, self.moments.since)?;
        take_packet(
            &mut self.broadcasts,
            &mut self.moments,
            &self.basis,
            &self.known,
            unit,
            frame,
            announced,
            time,
            self.number,
        )?;
        self.sessions.take(&self.basis, unit, frame, self.number)?;
        Ok(())
    }

    // Takes the frame of a line of this time.
    fn take_timed(&mut self, time: Option<u64>, frame: &Frame) -> Result<(), AllocError>
        requires time { IfSome time (λ t. t < 2 ^ 61) }
        requires near { AreAllNear self.old }
        ensures near { OnOk result (AreAllNear self.new) }
        ensures basis { self.new.basis ≡ self.old.basis }
        ensures number { self.new.number ≡ self.old.number }
        ensures interface { self.new.interface ≡ self.old.interface }
        ensures counts { self.new.counts ≡ self.old.counts }
        ensures again { self.new.again ≡ self.old.again }
        ensures frame { OnOk result ((past : AuditPast) (named : Option (List ℕ)) → AccordsWith self.old past
            → self.old.number ≡ past.number
            → FollowsNewFrame self.new past time named frame.now) }
    {
        let broken = breaks(self.basis.stamps, self.newest, time);
        let gap = ends_gap(
            self.basis.stamps,
            self.basis.quiet,
            self.newest,
            self.before,
            time,
        );
        let anew = begins_anew(self.basis.stamps, self.newest, time);
        self.before = time;
        self.newest = newest_behind(self.basis.stamps, self.newest, time);
        self.tally.look_at_next();
        take_break(
            &mut self.tally,
            &self.basis,
            &mut self.known,
            self.number,
            broken,
        )?;
        self.known.come_to(&self.basis, anew, time);
        let ending = ending_of(&self.basis, &self.known, frame);
        self.asking.take(
            &self.basis,
            &self.known,
            gap,
            anew,
            time,
            frame,
            self.number,
        );
        self.broadcasts.come_to(&self.basis, anew, gap, ending);
        self.sessions.come_to(broken, gap);
        let packet = transport_packet(frame);
        let announced = announcement_in(&packet);
        take_frame(
            &mut self.tally,
            &self.basis,
            &mut self.known,
            frame,
            packet,
            self.number,
        )?;
        self.take_times(gap, anew, time, frame, ending, announced)?;
        let request = self.tally.sighting.request;
        self.known.take_request(&self.basis, time, frame, request)
    }

    // Takes a line of an 11-bit identifier.
    fn take_short(&mut self) -> Result<(), AllocError>
        requires within { AreWithin self.old.counts (2 ^ 62) }
        requires near { AreAllNear self.old }
        ensures near { AreAllNear self.new }
        ensures basis { self.new.basis ≡ self.old.basis }
        ensures number { self.new.number ≡ self.old.number }
        ensures counted { IsLineMore self.old.counts self.new.counts }
        ensures fault { OnOk result ((past : AuditPast) → RecallsAudit self.old past
            → RecallsAudit self.new (skipped_line past)) }
    {
        self.taken = None;
        self.moments.pass_over();
        self.by_load.pass_over();
        self.counts.skipped += 1;
        note_if(
            &mut self.tally,
            has_frames(&self.counts),
            make_mark(Word::Short, 0),
            self.number,
            0,
        )?;
        Ok(())
    }

    // Takes a line that has a word and spells no frame.
    fn take_bad(&mut self) -> Result<(), AllocError>
        requires within { AreWithin self.old.counts (2 ^ 62) }
        requires near { AreAllNear self.old }
        ensures near { OnOk result (AreAllNear self.new) }
        ensures basis { self.new.basis ≡ self.old.basis }
        ensures number { self.new.number ≡ self.old.number }
        ensures counted { IsLineMore self.old.counts self.new.counts }
        ensures fault { OnOk result ((past : AuditPast) → RecallsAudit self.old past
            → RecallsAudit self.new (bad_line (settings_of self.new.basis) past)) }
    {
        self.counts.bad += 1;
        self.taken = None;
        self.asking.forget_all(&self.basis);
        self.broadcasts.forget_all(&self.basis);
        self.sessions.forget();
        self.moments.pass_bad(&self.basis)?;
        self.by_load.pass_bad(&self.basis.by_load())
    }

    // Takes a line that spells no frame.
    fn take_fault(&mut self, error: LineError) -> Result<(), AllocError>
        requires within { AreWithin self.old.counts (2 ^ 62) }
        requires near { AreAllNear self.old }
        ensures near { OnOk result (AreAllNear self.new) }
        ensures basis { self.new.basis ≡ self.old.basis }
        ensures fault { OnOk result ((past : AuditPast) → RecallsAudit self.old past
            → RecallsAudit self.new (passed_by (settings_of self.new.basis) error past)) }
        ensures number { self.new.number ≡ self.old.number }
        ensures counted { IsLineMore self.old.counts self.new.counts }
    {
        match error {
            LineError::Empty => Ok(()),
            LineError::ShortIdent => self.take_short(),
            LineError::NoHash => self.take_bad(),
            LineError::BadIdent => self.take_bad(),
            LineError::TooLong => self.take_bad(),
            LineError::BadData => self.take_bad(),
        }
    }

    // Takes a frame of this flow, unit and line that stands there again at this time.
    fn take_again(&mut self, flow: Option<usize>, unit: Option<usize>, line: u64, time: u64)
        requires time { time < 2 ^ 61 }
        requires near { AreAllNear self.old }
        ensures near { AreAllNear self.new }
        ensures basis { self.new.basis ≡ self.old.basis }
        ensures number { self.new.number ≡ self.old.number }
        ensures counts { self.new.counts ≡ self.old.counts }
        ensures again { (past : AuditPast) → RecallsAudit self.old past
            → RecallsAudit self.new (with_again (settings_of self.new.basis) flow unit line time past) }
    {
        self.again = self.again.saturating_add(1);
        self.moments.take_again(&self.basis, flow, time);
        self.by_load.take_again(&self.basis, flow, time);
        self.broadcasts.take_again(&self.basis, unit, line, time);
    }

    // Takes the frame before, if there is one, which stands there again at this time, if it has one.
    #[tactic(auto, unfolding(crate::specs::AuditPasts::past_again))]
    fn take_taken(&mut self, time: Option<u64>) -> Result<(), AllocError>
        requires time { IfSome time (λ t. t < 2 ^ 61) }
        requires near { AreAllNear self.old }
        ensures near { OnOk result (AreAllNear self.new) }
        ensures basis { self.new.basis ≡ self.old.basis }
        ensures number { self.new.number ≡ self.old.number }
        ensures counts { self.new.counts ≡ self.old.counts }
        ensures again { OnOk result ((past : AuditPast) → RecallsAudit self.old past
            → RecallsAudit self.new (past_again (settings_of self.new.basis) past.taken time past)) }
    {
        let Some(one) = &self.taken else {
            return Ok(());
        };
        let Some(at) = time else {
            return Ok(());
        };
        self.known
            .take_request(&self.basis, time, &one.frame, one.request)?;
        let flow = one.flow;
        let unit = one.unit;
        let line = one.line;
        self.take_again(flow, unit, line, at);
        Ok(())
    }

    // Takes a line of the frame before, which stands there again at this time, and that names this interface.
    fn take_line_again(&mut self, time: Option<u64>, named: Option<&[u8]>) -> Result<(), AllocError>
        requires time { IfSome time (λ t. t < 2 ^ 61) }
        requires near { AreAllNear self.old }
        ensures near { OnOk result (AreAllNear self.new) }
        ensures basis { self.new.basis ≡ self.old.basis }
        ensures again { OnOk result ((past : AuditPast) → RecallsAudit self.old past
            → RecallsAudit self.new (past_with_again (settings_of self.new.basis) time
            (option_copied named.entry) past)) }
        ensures number { self.new.number ≡ self.old.number }
        ensures counts { self.new.counts ≡ self.old.counts }
    {
        self.take_taken(time)?;
        keep_interface(self.alloc, &mut self.interface, named)
    }

    // Takes a line that spells this frame, which doesn't stand there again, and names this interface.
    fn take_new(
        &mut self,
        time: Option<u64>,
        named: Option<&[u8]>,
        frame: Frame,
    ) -> Result<(), AllocError>
        requires within { AreWithin self.old.counts (2 ^ 62) }
        requires time { IfSome time (λ t. t < 2 ^ 61) }
        requires near { AreAllNear self.old }
        ensures near { OnOk result (AreAllNear self.new) }
        ensures basis { self.new.basis ≡ self.old.basis }
        ensures frame { OnOk result ((past : AuditPast) → RecallsAudit self.old past
            → TakesFrameNew self.new past time (option_copied named.entry) frame) }
        ensures number { self.new.number ≡ self.old.number }
        ensures counted { IsLineMore self.old.counts self.new.counts }
    {
        self.take_timed(time, &frame)?;
        keep_interface(self.alloc, &mut self.interface, named)?;
        self.counts.frames += 1;
        self.taken = taken_frame(time, frame, self.number, self.tally.sighting);
        Ok(())
    }

    // Takes a line that spells this frame, and names this interface.
    fn take_frame_line(
        &mut self,
        time: Option<u64>,
        named: Option<&[u8]>,
        frame: Frame,
    ) -> Result<(), AllocError>
        requires within { AreWithin self.old.counts (2 ^ 62) }
        requires time { IfSome time (λ t. t < 2 ^ 61) }
        requires near { AreAllNear self.old }
        ensures near { OnOk result (AreAllNear self.new) }
        ensures basis { self.new.basis ≡ self.old.basis }
        ensures frame { OnOk result ((past : AuditPast) → RecallsAudit self.old past
            → TakesFrameLine self.new past time (option_copied named.entry) frame) }
        ensures number { self.new.number ≡ self.old.number }
        ensures counted { IsLineMore self.old.counts self.new.counts }
    {
        if is_again(self.basis.plan, &self.taken, time, &frame) {
            return self.take_line_again(time, named);
        }
        self.take_new(time, named, frame)
    }

    // Takes a line.
    fn take_line(&mut self, line: &[u8]) -> Result<(), AllocError>
        requires within { AreWithin self.old.counts (2 ^ 62) }
        requires near { AreAllNear self.old }
        ensures near { OnOk result (AreAllNear self.new) }
        ensures basis { self.new.basis ≡ self.old.basis }
        ensures line { OnOk result ((past : AuditPast) → RecallsAudit self.old past
            → TakesLine self.new past line.now) }
        ensures number { self.new.number ≡ self.old.number }
        ensures counted { IsLineMore self.old.counts self.new.counts }
    {
        let part = read_part(line);
        let read = read_frame(part);
        let named = interface(part, &read);
        if is_elsewhere(kept_interface(&self.interface), part, &read, named) {
            self.counts.elsewhere += 1;
            return Ok(());
        }
        match read {
            Ok(frame) => {
                let time = line_time(self.basis.plan, time_text(line));
                self.take_frame_line(time, named, frame)
            }
            Err(error) => self.take_fault(error),
        }
    }

    /// Reads what a cutter yields: a line, a line that is too long, or nothing yet.
    pub fn read(&mut self, cut: Cut, line: &[u8]) -> Result<(), AllocError>
        requires room { (most : ℕ) × IsWithinLines self.old most × (most ≤ 2 ^ 62) }
        ensures lines { OnOk result ((s : Settings) (ls : List Line) → HasAudited s self.old ls
            → HasAudited s self.new (ls ++ yields cut line.now)) }
        ensures count { OnOk result ((most more : ℕ) → IsWithinLines self.old most → most < more
            → IsWithinLines self.new more) }
    {
        match cut {
            Cut::More => Ok(()),
            Cut::Line => {
                self.number += 1;
                self.take_line(line)
            }
            Cut::Long => {
                self.number += 1;
                self.take_bad()
            }
        }
    }

    /// Ends what is open when the log has ended.
    pub fn end(&mut self) -> Result<(), AllocError>
        requires near { AreAllNear self.old }
        ensures { OnOk result ((s : Settings) (ls : List Line) → HasAudited s self.old ls
            → HasAuditedWhole s self.new ls) }
    {
        self.moments.end_all(&self.basis)?;
        self.by_load.end_all(&self.basis.by_load())
    }
}
