//! Of which flows more is asked than they send.
ghost use Rattle.std.specs.Prelude.{◌≡◌, ◌≢◌, ◌∷◌, ◌++◌, ◌≤◌, [], length, IfSome, IfNone, OnOk, OnErr};
ghost use Rattle.j39_network.specs.PlanLimits.{request_limit};
ghost use Rattle.j39_load.specs.AskedFlows.{asked_every, asking_periods, is_asked_too_often, is_more_than_one};
ghost use Rattle.j39_load.specs.LineLists.{lines_of_each};
ghost use Rattle.j39_load.specs.LoadFindings.{flows_asked_too_often, too_often};

use crate::findings::asked_share::AskedShare;
use crate::findings::load_finding::LoadFinding;
use j39_network::{FlowPlan, RequestPlan, serves};
use j39_search::FindResult;

/// How often a request asks for the flow: its period, where the flow answers it and it has one.
pub fn asked_every(flow: &FlowPlan, request: &RequestPlan) -> Option<u16>
    ensures { result ≡ asked_every flow.now request.now }
{
    if serves(request, flow) {
        request.period
    } else {
        None
    }
}

// Whether more is asked of a flow of this period than it sends.
fn is_more_asked(period: u16, requests: &[RequestPlan], flow: &FlowPlan) -> bool
    requires { length requests.now ≤ request_limit }
    ensures { result ≡ is_more_than_one period (asking_periods requests.now flow.now) }
{
    let mut share = AskedShare::none();
    for request in requests {
        if let Some(every) = asked_every(flow, request) {
            if share.add(period, every) {
                return true;
            }
        }
    }
    false
}

// Whether a flow is sent only as an answer, and requests ask for it oftener together than once in its period.
fn is_asked_too_often(requests: &[RequestPlan], flow: &FlowPlan) -> bool
    requires { length requests.now ≤ request_limit }
    ensures { result ≡ is_asked_too_often requests.now flow.now }
{
    match flow.pace {
        Some(pace) => flow.on_request && is_more_asked(pace.period, requests, flow),
        None => false,
    }
}

// What is wrong with how often the flow at a place is asked for.
fn too_often(requests: &[RequestPlan], place: usize, flow: &FlowPlan) -> Option<LoadFinding>
    requires { length requests.now ≤ request_limit }
    ensures some { IfSome result (λ finding. too_often requests.now place flow.now ≡ finding ∷ []) }
    ensures none { IfNone result (too_often requests.now place flow.now ≡ []) }
{
    if is_asked_too_often(requests, flow) {
        Some(LoadFinding::AskedTooOften(place))
    } else {
        None
    }
}

/// Adds each flow that is asked for too often.
#[tactic(auto, unfolding(crate::specs::LineLists::lines_of_each))]
pub(crate) fn find_asked_too_often(
    findings: &mut Vec<LoadFinding>,
    requests: &[RequestPlan],
    flows: &[FlowPlan],
) -> FindResult
    requires { length requests.now ≤ request_limit }
    ensures found { OnOk result (findings.new.items ≡ findings.old.items
        ++ flows_asked_too_often requests.now flows.now) }
    ensures memory { OnErr result (flows_asked_too_often requests.now flows.now ≢ []) }
{
    for (place, flow) in flows.iter().enumerate() {
        if let Some(finding) = too_often(requests, place, flow) {
            findings.push(finding)?;
        }
    }
    Ok(())
}
