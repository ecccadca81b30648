//! How old what units need is at most.
ghost use Rattle.std.specs.Prelude.{◌≡◌, ◌≢◌, ◌∷◌, ◌++◌, [], length, ◌<◌, IfSome, IfNone, OnOk, OnErr};
ghost use Rattle.j39_load.specs.Ages.{ages_for, ages_of, is_in_limit, is_too_old, least, least_age, old_needs, oldness};
ghost use Rattle.j39_load.specs.Ages.{first_of, first_of_age, has_several, place_of_age, smaller_known, youngest_flow};

use crate::findings::load_finding::LoadFinding;
use crate::frames::{us_of_bits, us_of_unit_ms};
use crate::waits::Delay;
use j39_network::{FlowPlan, NeedPlan, RequestPlan, Timing, is_met, meets};
use j39_search::FindResult;

// The age of what a flow of this delay brings, in microseconds, where one is known: it isn't known when answers are
// asked for.
fn age_of(timing: Timing, flow: &FlowPlan, delay: Option<Delay>) -> Option<u64>
    ensures some { IfSome result (λ age. ages_of timing flow.now delay ≡ age ∷ []) }
    ensures none { IfNone result (ages_of timing flow.now delay ≡ []) }
{
    if flow.on_request {
        return None;
    }
    match (delay, flow.pause) {
        (Some(Delay::Within(bits)), Some(pause)) => {
            Some(us_of_unit_ms(timing, pause) + us_of_bits(timing, u64::from(bits)) as u64)
        }
        _ => None,
    }
}

/// The smaller one of two numbers that may be known.
pub(crate) fn smaller(one: Option<u64>, other: Option<u64>) -> Option<u64>
    ensures { result ≡ smaller_known one other }
{
    match (one, other) {
        (Some(first), Some(second)) => Some(first.min(second)),
        (Some(first), None) => Some(first),
        (None, other) => other,
    }
}

// The age of what the flow at a place brings, where it meets the need and one is known.
fn age_for(
    timing: Timing,
    requests: &[RequestPlan],
    delays: &[Option<Delay>],
    need: &NeedPlan,
    place: usize,
    flow: &FlowPlan,
) -> Option<u64>
    requires { place < length delays.now }
    ensures { result ≡ least (ages_for timing requests.now delays.now need.now place flow.now) }
{
    if meets(requests, need, flow) {
        age_of(timing, flow, delays[place])
    } else {
        None
    }
}

/// How old what a unit needs is at most, in microseconds, by these delays of the flows: none where of no flow that
/// brings it an age is known.
#[tactic(auto, unfolding(crate::specs::LineLists::lines_of_each))]
pub fn least_age(
    timing: Timing,
    requests: &[RequestPlan],
    flows: &[FlowPlan],
    delays: &[Option<Delay>],
    need: &NeedPlan,
) -> Option<u64>
    requires { length delays.now ≡ length flows.now }
    ensures { result ≡ least_age timing requests.now flows.now delays.now need.now }
{
    let mut least = None;
    for (place, flow) in flows.iter().enumerate() {
        least = smaller(least, age_for(timing, requests, delays, need, place, flow));
    }
    least
}

// The place of a flow, where it meets the need and brings what is so old.
fn place_of_age(
    timing: Timing,
    requests: &[RequestPlan],
    delays: &[Option<Delay>],
    need: &NeedPlan,
    age: u64,
    place: usize,
    flow: &FlowPlan,
) -> Option<usize>
    requires { place < length delays.now }
    ensures { result ≡ first_of (place_of_age timing requests.now delays.now need.now age place flow.now) }
{
    match age_for(timing, requests, delays, need, place, flow) {
        Some(known) if known == age => Some(place),
        _ => None,
    }
}

// The place of the first of the flows that bring what is so old.
#[tactic(auto, unfolding(crate::specs::LineLists::lines_of_each))]
fn first_of_age(
    timing: Timing,
    requests: &[RequestPlan],
    flows: &[FlowPlan],
    delays: &[Option<Delay>],
    need: &NeedPlan,
    age: u64,
) -> Option<usize>
    requires { length delays.now ≡ length flows.now }
    ensures { result ≡ first_of_age timing requests.now flows.now delays.now need.now age }
{
    let mut first = None;
    for (place, flow) in flows.iter().enumerate() {
        first = first.or(place_of_age(timing, requests, delays, need, age, place, flow));
    }
    first
}

/// The place of the flow of which what a unit needs is youngest, the first one where there are several, by these delays
/// of the flows: none where of no flow that brings it an age is known.
pub fn youngest_flow(
    timing: Timing,
    requests: &[RequestPlan],
    flows: &[FlowPlan],
    delays: &[Option<Delay>],
    need: &NeedPlan,
) -> Option<usize>
    requires { length delays.now ≡ length flows.now }
    ensures { result ≡ youngest_flow timing requests.now flows.now delays.now need.now }
{
    match least_age(timing, requests, flows, delays, need) {
        Some(age) => first_of_age(timing, requests, flows, delays, need, age),
        None => None,
    }
}

/// Whether several flows meet a need.
pub fn has_several(requests: &[RequestPlan], flows: &[FlowPlan], need: &NeedPlan) -> bool
    ensures { result ≡ has_several requests.now flows.now need.now }
{
    let meeting = flows
        .iter()
        .filter(|flow| meets(requests, need, flow))
        .count();
    1 < meeting
}

/// Whether a time is known, and within this limit.
pub(crate) fn is_in_limit(limit: u32, time: Option<u64>) -> bool
    ensures { result ≡ is_in_limit limit time }
{
    match time {
        None => false,
        Some(time) => time <= u64::from(limit),
    }
}

fn is_too_old(
    timing: Timing,
    requests: &[RequestPlan],
    flows: &[FlowPlan],
    delays: &[Option<Delay>],
    need: &NeedPlan,
    within: u16,
) -> bool
    requires { length delays.now ≡ length flows.now }
    ensures { result ≡ is_too_old timing requests.now flows.now delays.now need.now within }
{
    let limit = 1_000 * u32::from(within);
    is_met(requests, flows, need)
        && !is_in_limit(limit, least_age(timing, requests, flows, delays, need))
}

// What is wrong with the need at a place.
fn oldness(
    timing: Timing,
    requests: &[RequestPlan],
    flows: &[FlowPlan],
    delays: &[Option<Delay>],
    place: usize,
    need: &NeedPlan,
) -> Option<LoadFinding>
    requires { length delays.now ≡ length flows.now }
    ensures some { IfSome result (λ finding. oldness timing requests.now flows.now delays.now place need.now ≡ finding
        ∷ []) }
    ensures none { IfNone result (oldness timing requests.now flows.now delays.now place need.now ≡ []) }
{
    match need.within {
        Some(within) if is_too_old(timing, requests, flows, delays, need, within) => {
            Some(LoadFinding::NeedTooOld(place))
        }
        _ => None,
    }
}

/// Adds what is wrong with the ages of what units need.
#[tactic(auto, unfolding(crate::specs::LineLists::lines_of_each))]
pub(crate) fn find_old_needs(
    findings: &mut Vec<LoadFinding>,
    timing: Timing,
    requests: &[RequestPlan],
    flows: &[FlowPlan],
    delays: &[Option<Delay>],
    needs: &[NeedPlan],
) -> FindResult
    requires { length delays.now ≡ length flows.now }
    ensures found { OnOk result (findings.new.items ≡ findings.old.items
        ++ old_needs timing requests.now flows.now delays.now needs.now) }
    ensures memory { OnErr result (old_needs timing requests.now flows.now delays.now needs.now ≢ []) }
{
    for (place, need) in needs.iter().enumerate() {
        if let Some(finding) = oldness(timing, requests, flows, delays, place, need) {
            findings.push(finding)?;
        }
    }
    Ok(())
}
