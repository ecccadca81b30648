//! Within how many milliseconds of its moment a message of a flow is queued.
ghost use Rattle.std.specs.Prelude.{◌≡◌, ◌≤◌, IfOk, Some, length, map};
ghost use Rattle.std.specs.List.{list_any};
ghost use Rattle.j39_load.specs.AskedFlows.{asked_every as every_asked};
ghost use Rattle.j39_network.specs.PlanLimits.{request_limit};
ghost use Rattle.j39_network.specs.declared.plan.request_plan.RequestPlan.{RequestPlan as APlannedRequest};
ghost use Rattle.j39_audit.specs.QueueTimes.{AreQueueTimes, queueing_of, longest_queueing};
ghost use Rattle.j39_audit.specs.inside.AskedWithin.{is_each_within};

use j39_load::{answered_within, asked_every, askers_of};
use j39_network::{FlowPlan, Pace, Plan, RequestPlan};
use std::alloc::{AllocError, Global};

// Whether what comes each so many milliseconds, if it does, comes sooner than each so many.
fn is_each_within(period: u16, every: Option<u16>) -> bool
    ensures { result ≡ is_each_within period every }
{
    match every {
        Some(every) => every < period,
        None => false,
    }
}

// Whether a request asks for a flow sooner than each so many milliseconds.
fn is_asked_within(requests: &[RequestPlan], flow: &FlowPlan, period: u16) -> bool
    ensures { result ≡ list_any (λ (r : APlannedRequest). is_each_within period (every_asked flow.now r)) requests.now }
{
    requests.iter().any(|request| is_each_within(period, asked_every(flow, request)))
}

// Within how many milliseconds a message of a flow of this pace is queued.
fn longest_queueing(requests: &[RequestPlan], flow: &FlowPlan, pace: Pace) -> Option<u16>
    requires paced { flow.now.pace ≡ Some pace }
    requires few { length requests.now ≤ request_limit }
    ensures { result ≡ longest_queueing requests.now flow.now pace }
{
    let askers = askers_of(requests, flow);
    if askers == 0 {
        return Some(pace.jitter);
    }
    if askers > 1 || is_asked_within(requests, flow, pace.period) {
        None
    } else {
        Some(answered_within(pace))
    }
}

// Of a flow, if it has a period.
fn queueing_of(requests: &[RequestPlan], flow: &FlowPlan) -> Option<u16>
    requires { length requests.now ≤ request_limit }
    ensures { result ≡ queueing_of requests.now flow.now }
{
    match flow.pace {
        Some(pace) => longest_queueing(requests, flow, pace),
        None => None,
    }
}

// Of each of these flows.
fn queue_times_by(
    alloc: Global,
    requests: &[RequestPlan],
    flows: &[FlowPlan],
) -> Result<Vec<Option<u16>>, AllocError>
    requires { length requests.now ≤ request_limit }
    ensures { IfOk result (λ times. times.items ≡ map (queueing_of requests.now) flows.now) }
{
    let mut times = Vec::new(alloc);
    for flow in flows {
        times.push(queueing_of(requests, flow))?;
    }
    Ok(times)
}

/// Within how many milliseconds of its moment a message of each flow is queued, where that is known.
pub(crate) fn queue_times_of(alloc: Global, plan: &Plan) -> Result<Vec<Option<u16>>, AllocError>
    ensures { IfOk result (λ times. AreQueueTimes plan.now times.items) }
{
    queue_times_by(alloc, &plan.requests, &plan.flows)
}
