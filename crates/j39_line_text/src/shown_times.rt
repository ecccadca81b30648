//! Which times of a line of vehicles are written.
ghost use Rattle.std.specs.Prelude.{◌≡◌, IfOk, length, map};
ghost use Rattle.std.specs.List.{range_with_len};
ghost use Rattle.j39_line_text.specs.ShownTimes.{AreShownTimes, is_need_of, is_reported_unmet, shown_flow, shown_need};
ghost use Rattle.j39_line_text.specs.ShownTimes.{reports_unmet};

use crate::possible_places::{is_place_possible, possible_flows, possible_needs};
use j39_findings::Finding;
use j39_line_bounds::{FlowTime, LineTimes, NeedTime};
use j39_line_check::ReportedFinding;
use j39_line_findings::LineFinding;
use j39_variants::ProductLine;
use std::alloc::{AllocError, Global};

// Whether a finding is that this need is unmet.
fn is_need_of(place: usize, finding: Finding) -> bool
    ensures { result ≡ is_need_of place finding }
{
    match finding {
        Finding::NeedUnmet(need) => need == place,
        _ => false,
    }
}

fn reports_unmet(place: usize, finding: LineFinding) -> bool
    ensures { result ≡ reports_unmet place finding }
{
    match finding {
        LineFinding::OfPlan(finding) => is_need_of(place, finding),
        LineFinding::OfLoad(_) => false,
    }
}

fn is_reported_unmet(reported: &[ReportedFinding], place: usize) -> bool
    ensures { result ≡ is_reported_unmet reported.now place }
{
    reported.iter().any(|one| reports_unmet(place, one.finding))
}

fn shown_flow(possible: &[bool], times: &LineTimes, place: usize) -> FlowTime
    ensures { result ≡ shown_flow possible.now times.now place }
{
    if is_place_possible(possible, place) {
        times.flow(place)
    } else {
        FlowTime::NoVariant
    }
}

// That it is unmet, where this is found, which needn't be in a variant whose times are reported.
fn shown_need(
    possible: &[bool],
    times: &LineTimes,
    reported: &[ReportedFinding],
    place: usize,
) -> NeedTime
    ensures { result ≡ shown_need possible.now times.now reported.now place }
{
    if !is_place_possible(possible, place) {
        return NeedTime::NoVariant;
    }
    if is_reported_unmet(reported, place) {
        NeedTime::Unmet
    } else {
        times.need(place)
    }
}

fn shown_flows(
    alloc: Global,
    possible: &[bool],
    times: &LineTimes,
) -> Result<Vec<FlowTime>, AllocError>
    ensures { IfOk result (λ v. v.items ≡ map (shown_flow possible.now times.now)
        (range_with_len 0 (length times.now.flows.items))) }
{
    (0..times.flows.len())
        .map(|place| shown_flow(possible, times, place))
        .collect(alloc)
}

fn shown_needs(
    alloc: Global,
    possible: &[bool],
    times: &LineTimes,
    reported: &[ReportedFinding],
) -> Result<Vec<NeedTime>, AllocError>
    ensures { IfOk result (λ v. v.items ≡ map (shown_need possible.now times.now reported.now)
        (range_with_len 0 (length times.now.needs.items))) }
{
    (0..times.needs.len())
        .map(|place| shown_need(possible, times, reported, place))
        .collect(alloc)
}

/// The times that are written of a line of which these were computed and this is found: that no possible variant has a
/// flow or asks for a need, though a variant looked at does; and that a need is found to be unmet.
pub(crate) fn shown_times(
    alloc: Global,
    line: &ProductLine,
    times: &LineTimes,
    reported: &[ReportedFinding],
) -> Result<LineTimes, AllocError>
    ensures { IfOk result (λ shown. AreShownTimes line.now times.now reported.now shown) }
{
    let of_flows = possible_flows(alloc, line)?;
    let of_needs = possible_needs(alloc, line)?;
    let flows = shown_flows(alloc, &of_flows, times)?;
    let needs = shown_needs(alloc, &of_needs, times, reported)?;
    Ok(LineTimes {
        flows,
        needs,
        load: times.load,
    })
}
