//! Silences of flows: where the next message comes too late, or where none came while all were there.
ghost use Rattle.std.specs.Prelude.{◌≡◌, ◌<◌, IfSome, OnOk, Some, None, if◌then◌else◌, length};
ghost use Rattle.j39_audit.specs.Moments.{Moments as AMoments, all_pauses_ended, ends_with, last_of_flow};
ghost use Rattle.j39_audit.specs.Moments.{listed_pauses_ended, newest_moment, pause_ended, pauses_dropped};
ghost use Rattle.j39_audit.specs.Moments.{pauses_ended, silence_behind, silent_by, silent_noted, unit_pauses_ended};
ghost use Rattle.j39_audit.specs.Moments.{with_ending, with_pause};
ghost use Rattle.j39_audit.specs.inside.Recalling.{AreNear, Notes, RecallsMoments, far_ahead, last_in_pauses};
ghost use Rattle.j39_audit.specs.inside.Recalling.{settings_of};

use crate::basis::Basis;
use crate::mark::{Word, make_mark};
use crate::moments::{Moments, lower_bound};
use crate::pauses::{Ending, LastFrame, Newest, Pauses, is_with_unit};
use crate::places::{forget_at, keep_at};
use crate::silence::{lag, latest_next};
use crate::streams::{FlowPause, flow_pause};
use crate::tally::MarkTally;
use crate::window::Window;
use j39_network::Timing;
use std::alloc::AllocError;

// The latest moment of a newest message.
fn newest_moment(newest: Option<Newest>) -> Option<u64>
    ensures { result ≡ newest_moment newest }
{
    match newest {
        Some(newest) => Some(newest.moment),
        None => None,
    }
}

// Notes that a flow is silent behind its newest message, where it is by so much.
fn note_silent(
    untimely: &mut MarkTally,
    place: usize,
    newest: Option<Newest>,
    by: Option<u64>,
) -> Result<(), AllocError>
    ensures { OnOk result (Notes untimely.old untimely.new (silent_noted place newest by)) }
{
    let Some(newest) = newest else {
        return Ok(());
    };
    match by {
        Some(by) => untimely.note(make_mark(Word::SilentFlow, place), newest.line, by),
        None => Ok(()),
    }
}

// By how much a flow of this pause is silent behind its newest message, by the last frame of its ends.
fn silent_by(pause: FlowPause, newest: Newest, last: Option<LastFrame>) -> Option<u64>
    requires pause { pause.pause < far_ahead }
    requires newest { newest.moment < far_ahead }
    ensures { result ≡ silent_by pause newest last }
{
    let Some(last) = last else {
        return None;
    };
    if newest.line < last.line {
        let lower = lower_bound(pause.slack, last.since);
        lag(pause.pause, Some(newest.moment), lower)
    } else {
        None
    }
}

// The last frame of the ends of the flow at a place.
fn last_of_flow(basis: &Basis<'_>, pauses: &Pauses, place: usize) -> Option<LastFrame>
    ensures { result ≡ last_of_flow (settings_of basis.now) (last_in_pauses pauses.now) place }
{
    match basis.plan.flows.get(place) {
        Some(flow) => pauses.last_of(flow),
        None => None,
    }
}

// By how much the flow at a place is silent where its pause ends.
fn silence_behind(
    basis: &Basis<'_>,
    timing: Timing,
    pauses: &Pauses,
    place: usize,
    newest: Option<Newest>,
) -> Option<u64>
    requires newest { IfSome newest (λ x. x.moment < far_ahead) }
    ensures { result ≡ silence_behind (settings_of basis.now) timing place newest (last_in_pauses pauses.now) }
{
    let Some(newest) = newest else {
        return None;
    };
    match flow_pause(basis, timing, place) {
        Some(pause) => silent_by(pause, newest, last_of_flow(basis, pauses, place)),
        None => None,
    }
}

impl Moments {
    // Takes a message of a flow of this pause.
    fn take_paused(
        &mut self,
        place: usize,
        pause: u64,
        window: Window,
        line: u64,
    ) -> Result<(), AllocError>
        requires place { place < 512 }
        requires pause { pause < far_ahead }
        requires upper { window.upper < far_ahead }
        requires near { AreNear self.old }
        ensures near { OnOk result (AreNear self.new) }
        ensures moments { OnOk result ((m : AMoments) → RecallsMoments self.old m
            → RecallsMoments self.new (with_pause (Some pause) place window line m)) }
    {
        let newest = self.pauses.newest(place);
        let latest = newest_moment(newest);
        let by = lag(pause, latest, window.lower);
        note_silent(&mut self.untimely, place, newest, by)?;
        let moment = latest_next(pause, latest, window);
        let next = Newest { moment, line };
        self.pauses.is_open = true;
        keep_at(&mut self.pauses.newest, place, Some(next));
        Ok(())
    }

    /// Takes a message of a flow of this pause, if it has one.
    pub fn take_pause(
        &mut self,
        place: usize,
        pause: Option<u64>,
        window: Window,
        line: u64,
    ) -> Result<(), AllocError>
        requires place { place < 512 }
        requires pause { IfSome pause (λ p. p < far_ahead) }
        requires upper { window.upper < far_ahead }
        requires near { AreNear self.old }
        ensures near { OnOk result (AreNear self.new) }
        ensures moments { OnOk result ((m : AMoments) → RecallsMoments self.old m
            → RecallsMoments self.new (with_pause pause place window line m)) }
    {
        match pause {
            Some(pause) => self.take_paused(place, pause, window, line),
            None => Ok(()),
        }
    }

    // Ends the pause of the flow at a place.
    fn end_pause(
        &mut self,
        basis: &Basis<'_>,
        timing: Timing,
        place: usize,
    ) -> Result<(), AllocError>
        requires near { AreNear self.old }
        ensures near { OnOk result (AreNear self.new) }
        ensures moments { OnOk result ((m : AMoments) → RecallsMoments self.old m
            → RecallsMoments self.new (pause_ended (settings_of basis.now) timing place m)) }
    {
        let newest = self.pauses.newest(place);
        let by = silence_behind(basis, timing, &self.pauses, place, newest);
        note_silent(&mut self.untimely, place, newest, by)?;
        forget_at(&mut self.pauses.newest, place);
        Ok(())
    }

    // Ends it if the flow is with a unit, or if all pauses end.
    fn end_with(
        &mut self,
        basis: &Basis<'_>,
        timing: Timing,
        unit: Option<usize>,
        place: usize,
    ) -> Result<(), AllocError>
        requires near { AreNear self.old }
        ensures near { OnOk result (AreNear self.new) }
        ensures moments { OnOk result ((m : AMoments) → RecallsMoments self.old m → RecallsMoments self.new
            (if ends_with (settings_of basis.now) unit place then pause_ended (settings_of basis.now) timing place m
            else m)) }
    {
        if self.pauses.newest(place).is_none() {
            return Ok(());
        }
        if ends_with(basis, unit, place) {
            self.end_pause(basis, timing, place)
        } else {
            Ok(())
        }
    }

    // Ends those of all flows, or of those with a unit.
    fn end_flows(
        &mut self,
        basis: &Basis<'_>,
        timing: Timing,
        unit: Option<usize>,
    ) -> Result<(), AllocError>
        requires near { AreNear self.old }
        ensures near { OnOk result (AreNear self.new) }
        ensures moments { OnOk result ((m : AMoments) → RecallsMoments self.old m → RecallsMoments self.new
            (pauses_ended (settings_of basis.now) timing unit (length basis.now.plan.now.flows.items) m)) }
    {
        for place in 0..basis.plan.flows.len() {
            self.end_with(basis, timing, unit, place)?;
        }
        Ok(())
    }

    /// Ends those of the flows of a list.
    pub fn end_listed(
        &mut self,
        basis: &Basis<'_>,
        timing: Timing,
        places: &[usize],
    ) -> Result<(), AllocError>
        requires near { AreNear self.old }
        ensures near { OnOk result (AreNear self.new) }
        ensures moments { OnOk result ((m : AMoments) → RecallsMoments self.old m → RecallsMoments self.new
            (listed_pauses_ended (settings_of basis.now) timing places.now (length places.now) m)) }
    {
        for at in 0..places.len() {
            self.end_pause(basis, timing, places[at])?;
        }
        Ok(())
    }

    // Ends all, of a bus of which this is known.
    fn end_known(&mut self, basis: &Basis<'_>, timing: Timing) -> Result<(), AllocError>
        requires near { AreNear self.old }
        ensures near { OnOk result (AreNear self.new) }
        ensures moments { OnOk result ((m : AMoments) → RecallsMoments self.old m → RecallsMoments self.new
            (pauses_dropped (pauses_ended (settings_of basis.now) timing None
            (length basis.now.plan.now.flows.items) m))) }
    {
        if !self.pauses.is_open {
            return Ok(());
        }
        self.end_flows(basis, timing, None)?;
        self.pauses.forget();
        Ok(())
    }

    /// Ends all.
    #[tactic(auto, unfolding(crate::specs::Moments::all_pauses_ended))]
    pub fn end_all(&mut self, basis: &Basis<'_>) -> Result<(), AllocError>
        requires near { AreNear self.old }
        ensures near { OnOk result (AreNear self.new) }
        ensures moments { OnOk result ((m : AMoments) → RecallsMoments self.old m
            → RecallsMoments self.new (all_pauses_ended (settings_of basis.now) m)) }
    {
        match basis.plan.timing {
            Some(timing) => self.end_known(basis, timing),
            None => Ok(()),
        }
    }

    // Ends those of the flows with a unit, which claims.
    fn end_unit(&mut self, basis: &Basis<'_>, timing: Timing, unit: usize) -> Result<(), AllocError>
        requires near { AreNear self.old }
        ensures near { OnOk result (AreNear self.new) }
        ensures moments { OnOk result ((m : AMoments) → RecallsMoments self.old m
            → RecallsMoments self.new (unit_pauses_ended (settings_of basis.now) timing unit m)) }
    {
        self.end_flows(basis, timing, Some(unit))?;
        forget_at(&mut self.pauses.last, unit);
        Ok(())
    }

    /// Ends those that end at a claim.
    pub fn end_at(
        &mut self,
        basis: &Basis<'_>,
        timing: Timing,
        ending: Ending,
    ) -> Result<(), AllocError>
        requires near { AreNear self.old }
        ensures near { OnOk result (AreNear self.new) }
        ensures moments { OnOk result ((m : AMoments) → RecallsMoments self.old m
            → RecallsMoments self.new (with_ending (settings_of basis.now) timing ending m)) }
    {
        match ending {
            Ending::Nothing => Ok(()),
            Ending::OfUnit(unit) => self.end_unit(basis, timing, unit),
            Ending::OfAll => self.end_all(basis),
        }
    }
}

// Whether the pause of the flow at a place ends where those with a unit do, or all.
fn ends_with(basis: &Basis<'_>, unit: Option<usize>, place: usize) -> bool
    ensures { result ≡ ends_with (settings_of basis.now) unit place }
{
    match unit {
        Some(unit) => is_with_unit(basis, unit, place),
        None => true,
    }
}
