//! Which flows answer a request, and which bring a unit what it needs.
ghost use Rattle.std.specs.Prelude.{◌≡◌};
ghost use Rattle.j39_network.specs.Serving.{is_asked_for, is_reached, is_served, serves, serves_some, is_from, meets};
ghost use Rattle.std.specs.List.{list_any};

use crate::plan::{FlowPlan, NeedPlan, RequestPlan, To};

/// Whether what goes there reaches the unit.
pub fn reaches(to: To, unit: usize) -> bool
    ensures { result ≡ is_reached to unit }
{
    match to {
        To::All => true,
        To::One(receiver) => receiver == unit,
    }
}

/// Whether the flow answers the request (SAE J1939-21, requests): it sends the group that is asked for to the unit that
/// asks or to all, and its sender is another unit, and is asked.
pub fn serves(request: &RequestPlan, flow: &FlowPlan) -> bool
    ensures { result ≡ serves request.now flow.now }
{
    flow.group == request.group
        && flow.sender != request.sender
        && reaches(request.to, flow.sender)
        && reaches(flow.to, request.sender)
}

/// Whether some flow answers the request.
pub fn is_served(flows: &[FlowPlan], request: &RequestPlan) -> bool
    ensures { result ≡ is_served flows.now request.now }
{
    flows.iter().any(|flow| serves(request, flow))
}

// Whether the flow answers some request.
fn serves_some(requests: &[RequestPlan], flow: &FlowPlan) -> bool
    ensures { result ≡ serves_some requests.now flow.now }
{
    requests.iter().any(|request| serves(request, flow))
}

/// Whether the flow comes by itself, or some request is there that it answers.
pub fn is_asked_for(requests: &[RequestPlan], flow: &FlowPlan) -> bool
    ensures { result ≡ is_asked_for requests.now flow.now }
{
    !flow.on_request || serves_some(requests, flow)
}

// Whether the need takes what this unit sends.
fn is_from(from: Option<usize>, sender: usize) -> bool
    ensures { result ≡ is_from from sender }
{
    match from {
        None => true,
        Some(unit) => sender == unit,
    }
}

/// Whether the flow brings the need's unit what it needs, where these are the requests of the plan.
pub fn meets(requests: &[RequestPlan], need: &NeedPlan, flow: &FlowPlan) -> bool
    ensures { result ≡ meets requests.now need.now flow.now }
{
    flow.group == need.group
        && flow.sender != need.unit
        && is_from(need.from, flow.sender)
        && reaches(flow.to, need.unit)
        && is_asked_for(requests, flow)
}

/// Whether some flow brings the need's unit what it needs.
pub fn is_met(requests: &[RequestPlan], flows: &[FlowPlan], need: &NeedPlan) -> bool
    ensures { result ≡ list_any (meets requests.now need.now) flows.now }
{
    flows.iter().any(|flow| meets(requests, need, flow))
}
