//! What is asked of flows: whether one sends a group, or answers a request.
ghost use Rattle.std.specs.Prelude.{◌≡◌};
ghost use Rattle.j39_line_witnesses.specs.FlowTests.{flow_test};

use j39_findings::sending::{sends, serves_all, serves_one};
use j39_network::{FlowPlan, GroupPlan, RequestPlan, serves};

/// What is asked of a flow.
#[derive(Clone, Copy)]
pub enum FlowTest<'a> {
    /// Whether it sends a group of this label.
    Sends(&'a GroupPlan),
    /// Whether it answers the request.
    Serves(&'a RequestPlan),
    /// Whether it does, to one unit.
    ServesOne(&'a RequestPlan),
    /// Whether it does, to all.
    ServesAll(&'a RequestPlan),
}

impl FlowTest<'_> {
    /// Whether it is so of a flow, where these are the groups of the plan.
    pub(crate) fn holds(&self, groups: &[GroupPlan], flow: &FlowPlan) -> bool
        ensures { result ≡ flow_test groups.now self.now flow.now }
    {
        match self {
            FlowTest::Sends(group) => sends(groups, group, flow),
            FlowTest::Serves(request) => serves(request, flow),
            FlowTest::ServesOne(request) => serves_one(request, flow),
            FlowTest::ServesAll(request) => serves_all(request, flow),
        }
    }
}
