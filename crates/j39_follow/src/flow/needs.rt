//! How often what units need was sent.
ghost use Rattle.std.specs.Prelude.{◌≡◌, ◌<◌, ◌++◌, List, OnOk, if◌then◌else◌};
ghost use Rattle.j39_network.specs.Serving.{meets as brings};
ghost use Rattle.j39_network.specs.PlanLimits.{flow_limit};
ghost use Rattle.j39_follow.specs.FollowText.{need_ends, need_met_line, times_met as times_sent};
ghost use Rattle.j39_follow.specs.declared.message.Sort.{Sort as ASort};
ghost use Rattle.j39_follow.specs.inside.Tallies.{IsTally, tally_at};

use crate::flow::tally::Tally;
use j39_network::{FlowPlan, NeedPlan, Plan, RequestPlan, meets};
use j39_text::{TextBuffer, WriteResult, write_need};

// How often the flow at a place was sent, where it meets the need.
fn met_by(
    tally: &Tally,
    requests: &[RequestPlan],
    need: &NeedPlan,
    place: usize,
    flow: &FlowPlan,
) -> u64
    requires { place < flow_limit }
    ensures { result ≡ (if brings requests.now need.now flow.now then tally_at tally.now.flows place else 0) }
{
    if meets(requests, need, flow) {
        tally.of_flow(place)
    } else {
        0
    }
}

// How often all flows together were sent that meet it.
fn times_met(plan: &Plan, tally: &Tally, need: &NeedPlan) -> u128
    ensures { (sent : List ASort) → IsTally plan.now tally.now sent
        → result ≡ times_sent plan.now.requests.items sent need.now 0 plan.now.flows.items }
{
    let mut times = 0;
    for place in 0..plan.flows.len() {
        times += u128::from(met_by(tally, &plan.requests, need, place, &plan.flows[place]));
    }
    times
}

#[tactic(auto, unfolding(crate::specs::FollowText::need_met_line))]
fn write_met(
    text: &mut TextBuffer,
    plan: &Plan,
    place: usize,
    need: &NeedPlan,
    times: u128,
) -> WriteResult
    ensures { OnOk result (text.new ≡ text.old ++ need_met_line plan.now place need.now times) }
{
    write_need(text, plan, place, need)?;
    text.field(" met ", times)?;
    text.end_line()
}

/// Writes how often each need was met.
pub(crate) fn write_needs(text: &mut TextBuffer, plan: &Plan, tally: &Tally) -> WriteResult
    ensures { OnOk result ((sent : List ASort) → IsTally plan.now tally.now sent
        → text.new ≡ text.old ++ need_ends plan.now sent) }
{
    for place in 0..plan.needs.len() {
        let need = &plan.needs[place];
        write_met(text, plan, place, need, times_met(plan, tally, need))?;
    }
    Ok(())
}
