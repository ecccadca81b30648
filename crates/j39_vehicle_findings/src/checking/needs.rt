//! Which needs no flow meets.
ghost use Rattle.std.specs.Prelude.{◌≡◌};
ghost use Rattle.j39_search.specs.Adding.{Adds};
ghost use Rattle.j39_network.specs.Serving.{meets};
ghost use Rattle.j39_search.specs.ListPlaces.{each};
ghost use Rattle.j39_vehicle_findings.specs.FoundPaths.{is_need_flow, is_need_unmet, need_findings, some_at};
ghost use Rattle.j39_vehicle_findings.specs.Traces.{flows_of_need, need_on_bus};

use crate::buses::{flows_on, requests_on};
use crate::finding::VehicleFinding;
use crate::routes::Routes;
use j39_network::{FlowPlan, NeedPlan, RequestPlan, meets};
use j39_search::{FindResult, TestRule, find_tested};
use j39_vehicle::VehicleNeed;

// Whether the flow brings the need's unit the group that it needs.
fn is_needed(requests: &[RequestPlan], need: &VehicleNeed, flow: &FlowPlan) -> bool
    ensures { result ≡ meets requests.now (need_on_bus need.now) flow.now }
{
    let on_bus = NeedPlan {
        unit: need.unit.unit,
        group: need.group,
        signal: None,
        from: None,
        within: None,
    };
    meets(requests, &on_bus, flow)
}

impl Routes<'_> {
    /// Whether the flow, at its place on the need's bus, brings the unit what it needs, from the unit that is named.
    pub fn is_need_flow(&self, need: &VehicleNeed, place: usize, flow: &FlowPlan) -> bool
        ensures { result ≡ is_need_flow self.now.vehicle.now need.now place flow.now }
    {
        let requests = requests_on(&self.vehicle.buses, need.unit.bus);
        is_needed(requests, need, flow) && self.is_from_origin(need, place)
    }
}

// Whether one of these flows, which are all of the need's bus, does.
fn some_is_need_flow(routes: &Routes<'_>, need: &VehicleNeed, flows: &[FlowPlan]) -> bool
    ensures { result ≡ some_at (is_need_flow routes.now.vehicle.now need.now) 0 flows.now }
{
    for (place, flow) in flows.iter().enumerate() {
        if routes.is_need_flow(need, place, flow) {
            return true;
        }
    }
    false
}

fn is_need_met(routes: &Routes<'_>, need: &VehicleNeed) -> bool
    ensures { result
        ≡ some_at (is_need_flow routes.now.vehicle.now need.now) 0 (flows_of_need routes.now.vehicle.now need.now) }
{
    let flows = flows_on(&routes.vehicle.buses, need.unit.bus);
    some_is_need_flow(routes, need, flows)
}

#[derive(Clone, Copy)]
struct VehicleNeedUnmet<'a> {
    routes: Routes<'a>,
}

impl TestRule<VehicleNeed, VehicleFinding> for VehicleNeedUnmet<'_> {
    ghost use Rattle.j39_vehicle_findings.specs.declared.finding.VehicleFinding.TheVariants.{NeedUnmet as NeedsUnmet};

    ghost test = { λ rule. is_need_unmet rule.routes.vehicle.now };

    ghost make = { λ _ d. NeedsUnmet d };

    fn holds(&self, need: &VehicleNeed) -> bool {
        !is_need_met(&self.routes, need)
    }

    fn finding(&self, place: usize) -> VehicleFinding {
        VehicleFinding::NeedUnmet(place)
    }
}

/// Adds the needs that no flow meets.
#[tactic(auto, unfolding(crate::specs::FoundPaths::need_findings))]
pub fn find_in_needs(findings: &mut Vec<VehicleFinding>, routes: &Routes<'_>) -> FindResult
    ensures { Adds result findings.old.items findings.new.items (need_findings routes.now.vehicle.now) }
{
    find_tested(
        findings,
        &VehicleNeedUnmet { routes: *routes },
        &routes.vehicle.needs,
    )
}
