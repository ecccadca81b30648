//! The laws of requests.
ghost use Rattle.j39_network.specs.declared.plan.Plan.{Plan};
ghost use Rattle.j39_network.specs.declared.plan.flow_plan.FlowPlan.{FlowPlan};
ghost use Rattle.j39_network.specs.declared.plan.need_plan.NeedPlan.{NeedPlan};
ghost use Rattle.j39_findings.specs.Findings.{Clean};
ghost use Rattle.j39_network.specs.PlannedRequests.{AreAnsweredWell, AreRequestsServed, ComesByItself};
ghost use Rattle.j39_findings.specs.WithoutRequests.{IsWithoutRequests};

/// In a clean plan some flow answers each request (`served`): one unit that is asked for messages that can name a
/// receiver answers to the one that asks, and where all are asked, some unit answers to all (`answers`).
pub fn requests_are_served()
    ensures served { (plan : Plan) → Clean plan → AreRequestsServed plan }
    ensures answers { (plan : Plan) → Clean plan → AreAnsweredWell plan }
{}

/// Of a plan without requests F21, F22, F23 and F25 say nothing (`unfound`); and a flow that isn't sent as an answer
/// meets the same needs whatever is asked for (`alike`).
pub fn plans_without_requests()
    ensures unfound { (plan : Plan) → IsWithoutRequests plan }
    ensures alike { (need : NeedPlan) (flow : FlowPlan) → ComesByItself need flow }
{}
