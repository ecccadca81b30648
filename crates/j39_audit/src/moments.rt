//! What the times of a log report of the moments of messages.
ghost use Rattle.std.specs.Prelude.{◌≡◌, ◌<◌, ◌≤◌, ◌^◌, ◌++◌, [], ℕ, if◌then◌else◌, List, Option, IfOk, IfSome, OnOk};
ghost use Rattle.std.specs.Prelude.{Some, length};
ghost use Rattle.std.specs.Option.{option_map};
ghost use Rattle.j39_audit.specs.Counting.{Noted};
ghost use Rattle.j39_audit.specs.Moments.{Moments as AMoments, all_pauses_ended, begun_anew, behind_bad, behind_gap};
ghost use Rattle.j39_audit.specs.Moments.{lower_bound, moments_behind, no_moments, with_moment};
ghost use Rattle.j39_audit.specs.Moments.{listed_pauses_ended, moment_window, with_counted, with_ending, with_frame_of};
ghost use Rattle.j39_audit.specs.Moments.{with_message, with_message_of, with_packet_stream, with_stream, with_time};
ghost use Rattle.j39_audit.specs.MessageStreams.{nothing_sighted, sighted_behind, sighted_stream};
ghost use Rattle.j39_audit.specs.Pauses.{unclear_behind};
ghost use Rattle.j39_audit.specs.inside.Recalling.{AreNear, RecallsMoments, far_ahead, settings_of};

use crate::basis::Basis;
use crate::earliest::Earliest;
use crate::idle::{LONG_BEFORE, since_behind};
use crate::nearness::{candidate, excess, kept_behind};
use crate::pauses::{Ending, LastFrame, Pauses};
use crate::places::keep_at;
use crate::streams::{MessageStream, sighted_stream};
use crate::tally::{MarkTally, Sighting};
use crate::window::Window;
use j39_id::Frame;
use j39_network::Timing;
use std::alloc::{AllocError, Global};

/// What the times of a log report so far: the time of the line before, where it is a frame that has one, since when all
/// was queued that begins from here on, or by load all has ended that ends from here on, of each stream the earliest
/// moment of its newest message, of flows with a pause what is kept of these, and what was found.
#[derive(Drop)]
pub(crate) struct Moments {
    pub before: Option<u64>,
    pub since: Option<u64>,
    pub earliest: Earliest,
    pub untimely: MarkTally,
    pub pauses: Pauses,
}

/// What there is to a frame: of which flow or request it is seen, of which flows it may be, for whom it counts, from
/// which group it deviates, and whose pauses end at it.
#[derive(Clone, Copy)]
pub(crate) struct Seen<'a> {
    pub sighting: Sighting,
    pub unclear: &'a [usize],
    pub ending: Ending,
}

/// Before which no message had its moment that comes since then, and so far behind it at most.
pub(crate) fn lower_bound(slack: Option<u64>, since: Option<u64>) -> Option<u64>
    ensures value { result ≡ lower_bound slack since }
    ensures few { IfSome since (λ q. q < far_ahead) → IfSome result (λ x. x < far_ahead) }
{
    let Some(slack) = slack else {
        return None;
    };
    match since {
        Some(since) => Some(since.saturating_sub(slack)),
        None => None,
    }
}

// The bounds of the moment of a message of this time, with what is known of how late it may be.
fn moment_window(basis: &Basis<'_>, slack: Option<u64>, time: u64, since: Option<u64>) -> Window
    requires time { time < 2 ^ 61 }
    requires near { IfSome since (λ q. q < far_ahead) }
    ensures value { result ≡ moment_window (settings_of basis.now) slack time since }
    ensures lower { IfSome result.lower (λ x. x < far_ahead) }
{
    Window {
        lower: lower_bound(slack, since),
        upper: time + LONG_BEFORE + basis.logger_error(),
    }
}

impl Moments {
    pub fn new(alloc: Global) -> Result<Self, AllocError>
        ensures moments { IfOk result (λ new. RecallsMoments new no_moments) }
        ensures near { IfOk result AreNear }
    {
        let pauses = Pauses::new(alloc)?;
        Ok(Moments {
            before: None,
            since: None,
            earliest: Earliest::new(alloc),
            untimely: MarkTally::new(alloc),
            pauses,
        })
    }

    /// Passes over a line that is skipped.
    pub fn pass_over(&mut self)
        ensures moments { (m : AMoments) → RecallsMoments self.old m → RecallsMoments self.new (behind_gap m) }
        ensures near { AreNear self.old → AreNear self.new }
    {
        self.before = None;
        self.since = None;
    }

    /// Passes over a line that is bad, at which a frame may be missing.
    pub fn pass_bad(&mut self, basis: &Basis<'_>) -> Result<(), AllocError>
        requires near { AreNear self.old }
        ensures near { OnOk result (AreNear self.new) }
        ensures moments { OnOk result ((m : AMoments) → RecallsMoments self.old m
            → RecallsMoments self.new (behind_bad (settings_of basis.now) m)) }
    {
        self.end_all(basis)?;
        self.pass_over();
        Ok(())
    }

    // Ends pauses, where a gap ends.
    fn end_at_gap(&mut self, basis: &Basis<'_>, gap: bool) -> Result<(), AllocError>
        requires near { AreNear self.old }
        ensures near { OnOk result (AreNear self.new) }
        ensures moments { OnOk result ((m : AMoments) → RecallsMoments self.old m
            → RecallsMoments self.new (if gap then all_pauses_ended (settings_of basis.now) m else m)) }
    {
        if gap { self.end_all(basis) } else { Ok(()) }
    }

    // Begins anew, where times do, and ends pauses, where a gap ends.
    fn begin(&mut self, basis: &Basis<'_>, anew: bool, gap: bool) -> Result<(), AllocError>
        requires near { AreNear self.old }
        ensures near { OnOk result (AreNear self.new) }
        ensures moments { OnOk result ((m : AMoments) → RecallsMoments self.old m
            → RecallsMoments self.new (begun_anew (settings_of basis.now) anew gap m)) }
    {
        if !anew {
            return self.end_at_gap(basis, gap);
        }
        self.end_all(basis)?;
        self.before = None;
        self.since = None;
        self.earliest.forget();
        Ok(())
    }

    // Takes the time of a frame of so many bytes.
    fn take_time(&mut self, basis: &Basis<'_>, timing: Timing, gap: bool, bytes: usize, time: u64)
        requires bytes { bytes < 2 ^ 16 }
        requires time { time < 2 ^ 61 }
        requires near { AreNear self.old }
        ensures near { AreNear self.new }
        ensures moments { (m : AMoments) → RecallsMoments self.old m
            → RecallsMoments self.new (with_moment (settings_of basis.now) timing gap bytes time m) }
    {
        self.since = since_behind(basis, timing, gap, bytes, time, self.before, self.since);
        self.before = Some(time);
    }

    // Takes a message of a stream within these bounds.
    fn take_message(
        &mut self,
        stream: MessageStream,
        window: Window,
        line: u64,
    ) -> Result<(), AllocError>
        requires step { stream.step < 2 ^ 27 }
        requires upper { window.upper < far_ahead }
        requires lower { IfSome window.lower (λ x. x < far_ahead) }
        requires near { AreNear self.old }
        ensures near { OnOk result (AreNear self.new) }
        ensures moments { OnOk result ((m : AMoments) → RecallsMoments self.old m
            → RecallsMoments self.new (with_message stream window line m)) }
    {
        let moment = candidate(stream.step, self.earliest.of(stream.mark), window);
        let by = excess(moment, window.upper);
        self.untimely.note_by(stream.mark, line, by)?;
        self.earliest.set(stream.mark, kept_behind(moment, window))?;
        Ok(())
    }

    // Takes a message of a stream within these bounds, unless it may have been sent besides those of the stream.
    fn take_message_of(
        &mut self,
        besides: bool,
        stream: MessageStream,
        window: Window,
        line: u64,
    ) -> Result<(), AllocError>
        requires step { stream.step < 2 ^ 27 }
        requires upper { window.upper < far_ahead }
        requires lower { IfSome window.lower (λ x. x < far_ahead) }
        requires near { AreNear self.old }
        ensures near { OnOk result (AreNear self.new) }
        ensures moments { OnOk result ((m : AMoments) → RecallsMoments self.old m
            → RecallsMoments self.new (with_message_of besides stream window line m)) }
    {
        if besides {
            return Ok(());
        }
        self.take_message(stream, window, line)
    }

    // Takes a message of a stream, if there is one.
    fn take_stream(
        &mut self,
        basis: &Basis<'_>,
        time: u64,
        line: u64,
        besides: bool,
        stream: Option<MessageStream>,
    ) -> Result<(), AllocError>
        requires step { IfSome stream (λ it. it.step < 2 ^ 27) }
        requires pause { IfSome stream (λ it. IfSome it.pause (λ p. p < 2 ^ 40)) }
        requires place { IfSome stream (λ it. it.mark.subject < 512) }
        requires time { time < 2 ^ 61 }
        requires near { AreNear self.old }
        ensures near { OnOk result (AreNear self.new) }
        ensures moments { OnOk result ((m : AMoments) → RecallsMoments self.old m
            → RecallsMoments self.new (with_stream (settings_of basis.now) time line besides stream m)) }
    {
        match stream {
            Some(one) => {
                let window = moment_window(basis, one.slack, time, self.since);
                self.take_message_of(besides, one, window, line)?;
                self.take_pause(one.mark.subject, one.pause, window, line)
            }
            None => Ok(()),
        }
    }

    /// Takes a packet of a broadcast, if the frame of this time is one.
    pub fn take_packet(
        &mut self,
        basis: &Basis<'_>,
        time: Option<u64>,
        line: u64,
        stream: Option<MessageStream>,
    ) -> Result<(), AllocError>
        requires step { IfSome stream (λ it. it.step < 2 ^ 27) }
        requires time { IfSome time (λ t. t < 2 ^ 61) }
        requires near { AreNear self.old }
        ensures near { OnOk result (AreNear self.new) }
        ensures moments { OnOk result ((m : AMoments) → RecallsMoments self.old m
            → RecallsMoments self.new (with_packet_stream (settings_of basis.now) time line stream m)) }
    {
        let Some(time) = time else {
            return Ok(());
        };
        let Some(stream) = stream else {
            return Ok(());
        };
        let window = moment_window(basis, stream.slack, time, self.since);
        self.take_message(stream, window, line)
    }

    // Keeps a frame that counts for a unit.
    fn keep_last(&mut self, unit: usize, line: u64)
        requires unit { unit < 128 }
        requires near { AreNear self.old }
        ensures near { AreNear self.new }
        ensures moments { (m : AMoments) → RecallsMoments self.old m
            → RecallsMoments self.new (with_frame_of unit line m) }
    {
        let since = self.since;
        let last = LastFrame { line, since };
        self.pauses.is_open = true;
        keep_at(&mut self.pauses.last, unit, Some(last));
    }

    // Keeps a frame that counts for a unit, if there is one.
    fn take_counted(&mut self, basis: &Basis<'_>, unit: Option<usize>, line: u64)
        requires near { AreNear self.old }
        ensures near { AreNear self.new }
        ensures moments { (m : AMoments) → RecallsMoments self.old m
            → RecallsMoments self.new (with_counted (settings_of basis.now) unit line m) }
    {
        if let Some(unit) = unit {
            if unit < basis.plan.units.len() {
                self.keep_last(unit, line);
            }
        }
    }

    // Ends the pauses that end at a frame.
    fn end_pauses(
        &mut self,
        basis: &Basis<'_>,
        timing: Timing,
        seen: Seen<'_>,
    ) -> Result<(), AllocError>
        requires near { AreNear self.old }
        ensures near { OnOk result (AreNear self.new) }
        ensures moments { OnOk result ((m : AMoments) → RecallsMoments self.old m
            → RecallsMoments self.new (listed_pauses_ended (settings_of basis.now) timing seen.entry.unclear.now
            (length seen.entry.unclear.now)
            (with_ending (settings_of basis.now) timing seen.entry.ending m))) }
    {
        self.end_at(basis, timing, seen.ending)?;
        self.end_listed(basis, timing, seen.unclear)
    }

    // Takes a frame of this time that is seen so, of a bus of which this is known.
    fn take_known(
        &mut self,
        basis: &Basis<'_>,
        timing: Timing,
        gap: bool,
        time: u64,
        frame: &Frame,
        line: u64,
        seen: Seen<'_>,
    ) -> Result<(), AllocError>
        requires time { time < 2 ^ 61 }
        requires near { AreNear self.old }
        ensures near { OnOk result (AreNear self.new) }
        ensures moments { OnOk result ((m : AMoments) → RecallsMoments self.old m → RecallsMoments self.new
            (with_time (settings_of basis.now) (Some timing) gap
            (Some time) frame.now line seen.entry.sighting seen.entry.unclear.now seen.entry.ending m)) }
    {
        self.take_time(basis, timing, gap, frame.payload.len(), time);
        self.end_pauses(basis, timing, seen)?;
        self.end_deviating(basis, seen.sighting);
        let stream = sighted_stream(basis, timing, frame, seen.sighting);
        self.take_stream(basis, time, line, seen.sighting.besides, stream)?;
        self.take_counted(basis, seen.sighting.unit, line);
        Ok(())
    }

    // Takes a frame of this time that is seen so.
    fn take_at(
        &mut self,
        basis: &Basis<'_>,
        gap: bool,
        time: Option<u64>,
        frame: &Frame,
        line: u64,
        seen: Seen<'_>,
    ) -> Result<(), AllocError>
        requires time { IfSome time (λ t. t < 2 ^ 61) }
        requires near { AreNear self.old }
        ensures near { OnOk result (AreNear self.new) }
        ensures moments { OnOk result ((m : AMoments) → RecallsMoments self.old m → RecallsMoments self.new
            (with_time
            (settings_of basis.now) basis.now.plan.now.timing gap time frame.now line seen.entry.sighting seen.entry.unclear.now seen.entry.ending m)) }
    {
        let Some(timing) = basis.plan.timing else {
            return Ok(());
        };
        let Some(time) = time else {
            return Ok(());
        };
        self.take_known(basis, timing, gap, time, frame, line, seen)
    }

    /// Looks at a frame of this time, just before which a gap ends and times begin anew, or they don't, and of which
    /// this is seen.
    pub fn look(
        &mut self,
        basis: &Basis<'_>,
        gap: bool,
        anew: bool,
        time: Option<u64>,
        frame: &Frame,
        seen: Seen<'_>,
        line: u64,
    ) -> Result<(), AllocError>
        requires time { IfSome time (λ t. t < 2 ^ 61) }
        requires near { AreNear self.old }
        ensures near { OnOk result (AreNear self.new) }
        ensures moments { OnOk result ((m : AMoments) (noted : List Noted) → RecallsMoments self.old m
            → seen.entry.sighting ≡ sighted_behind nothing_sighted noted
            → seen.entry.unclear.now ≡ unclear_behind [] noted
            → RecallsMoments self.new (moments_behind
            (settings_of basis.now) gap anew time frame.now line noted seen.entry.ending m)) }
    {
        self.begin(basis, anew, gap)?;
        self.take_at(basis, gap, time, frame, line, seen)?;
        Ok(())
    }
}
