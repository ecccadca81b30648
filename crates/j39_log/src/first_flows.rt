//! Where the flows of each group of a plan begin.
ghost use Rattle.std.specs.Prelude.{◌≡◌, ◌==◌, ◌<◌, ℕ, if◌then◌else◌};
ghost use Rattle.j39_network.specs.PlanLimits.{group_limit};
ghost use Rattle.j39_log.specs.inside.FirstFlows.{AreFirstFlows, start_at};

use j39_network::FlowPlan;
use j39_network::limits::GROUP_LIMIT;

// The flows of a group begin at this place.
fn begin(starts: &mut [usize; GROUP_LIMIT], group: usize, place: usize)
    ensures { (g : ℕ) → g < group_limit
        → start_at starts.new g ≡ (if group == g then place else start_at starts.old g) }
{
    if group < GROUP_LIMIT {
        starts[group] = place;
    }
}

/// By the place of a group that of its first flow, or how many flows there are.
pub(crate) fn first_flows(flows: &[FlowPlan]) -> [usize; GROUP_LIMIT]
    ensures { AreFirstFlows flows.now result }
{
    let mut starts = [flows.len(); GROUP_LIMIT];
    let mut place = flows.len();
    while place > 0 {
        place -= 1;
        begin(&mut starts, flows[place].group, place);
    }
    starts
}
