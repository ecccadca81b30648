//! The flows of a plan, with what their groups say.
ghost use Rattle.std.specs.Prelude.{◌≡◌, ◌<◌, ◌≤◌, length, All, IfOk};
ghost use Rattle.j39_id.specs.Limits.{message_bytes};
ghost use Rattle.j39_world.specs.Flows.{flow_of, flows_of};
ghost use Rattle.j39_bus.specs.inside.KeptMessages.{IsFlow};
ghost use Rattle.j39_network.specs.PlannedGroups.{IsSendable};

use j39_id::Pgn;
use j39_network::{FlowPlan, GroupPlan, Plan};
use j39_world::Flow;
use std::alloc::{AllocError, Global};

// A flow with what its group says.
fn flow_of(groups: &[GroupPlan], flow: &FlowPlan) -> Flow
    requires groups { All IsSendable groups.now }
    requires group { flow.now.group < length groups.now }
    ensures flow { result ≡ flow_of groups.now flow.now }
    ensures length { result.most ≤ message_bytes }
    ensures priority { result.priority ≤ 7 }
{
    let group = &groups[flow.group];
    let Some(pgn) = Pgn::new(group.pgn) else {
        unreachable!()
    };
    Flow {
        pgn,
        priority: group.priority,
        length: group.length,
        most: group.most,
        when: group.when,
        sender: flow.sender,
        to: flow.to,
    }
}

/// The flows of a plan in their order.
pub(crate) fn flows_of(alloc: Global, plan: &Plan) -> Result<Vec<Flow>, AllocError>
    requires { All IsSendable plan.now.groups.items }
    ensures flows { IfOk result (λ flows. flows.items ≡ flows_of plan.now) }
    ensures fit { IfOk result (λ flows. All (IsFlow (length plan.now.units.items)) flows.items) }
{
    let mut flows = Vec::with_capacity(alloc, plan.flows.len())?;
    for flow in &plan.flows {
        flows.push_reserved(flow_of(plan.groups.as_slice(), flow));
    }
    Ok(flows)
}
