//! Gaps: where a log has no frame for long.
ghost use Rattle.std.specs.Prelude.{◌≡◌, length};
ghost use Rattle.j39_audit.specs.Below.{least_below, lesser_of};
ghost use Rattle.j39_audit.specs.Gaps.{ends_gap, is_long_behind, least_pause, pause_of_frames, quiet_by, single_pause};
ghost use Rattle.j39_audit.specs.Gaps.{usual_quiet};

use crate::times::breaks;
use j39_network::{FlowPlan, GroupPlan, Plan};

// The most bytes of a frame.
const FRAME_BYTES: u16 = 8;

// How many milliseconds without a frame are a gap: at least, and at most.
const SHORTEST: u64 = 100;

const LONGEST: u64 = 1_000;

// The pause of a flow of this group, if each message of it goes in one frame.
fn pause_of_frames(flow: &FlowPlan, group: &GroupPlan) -> Option<u16>
    ensures { result ≡ pause_of_frames flow.now group.now }
{
    if group.most <= FRAME_BYTES {
        flow.pause
    } else {
        None
    }
}

// That of the flow at a place.
#[tactic(auto, unfolding(crate::specs::Gaps::single_pause))]
fn single_pause(plan: &Plan, place: usize) -> Option<u16>
    ensures { result ≡ single_pause plan.now place }
{
    let flow = plan.flows.get(place)?;
    let group = plan.groups.get(flow.group)?;
    pause_of_frames(flow, group)
}

// The lesser of two numbers, as far as they are there.
fn lesser(one: Option<u16>, other: Option<u16>) -> Option<u16>
    ensures { result ≡ lesser_of one other }
{
    let Some(number) = one else {
        return other;
    };
    match other {
        Some(another) => Some(number.min(another)),
        None => one,
    }
}

// The least one of all flows.
fn least_pause(plan: &Plan) -> Option<u16>
    ensures { result ≡ least_pause plan.now }
{
    let mut least = None;
    for place in 0..plan.flows.len() {
        least = lesser(least, single_pause(plan, place));
    }
    least
}

// How many milliseconds without a frame are a gap, by the least pause.
fn usual_quiet(pause: Option<u16>) -> u64
    ensures { result ≡ usual_quiet pause }
{
    match pause {
        Some(pause) => LONGEST.min(SHORTEST.max(4 * u64::from(pause))),
        None => LONGEST,
    }
}

/// How many milliseconds without a frame are a gap: as it is given, or by the plan.
pub(crate) fn quiet_by(plan: &Plan, quiet: Option<u64>) -> u64
    ensures { result ≡ quiet_by plan.now quiet }
{
    match quiet {
        Some(quiet) => quiet,
        None => usual_quiet(least_pause(plan)),
    }
}

// Whether a frame of this time comes so long behind the one before.
fn is_long_behind(quiet: u64, before: Option<u64>, time: Option<u64>) -> bool
    ensures { result ≡ is_long_behind quiet before time }
{
    let Some(before) = before else {
        return false;
    };
    let Some(time) = time else {
        return false;
    };
    before.saturating_add(quiet.saturating_mul(1_000)) < time
}

/// Whether a gap ends just before a frame of this time.
pub(crate) fn ends_gap(
    stamps: u64,
    quiet: u64,
    newest: Option<u64>,
    before: Option<u64>,
    time: Option<u64>,
) -> bool
    ensures { result ≡ ends_gap stamps quiet newest before time }
{
    breaks(stamps, newest, time) || is_long_behind(quiet, before, time)
}
