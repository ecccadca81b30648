//! The law of groups that are distinguished by their data.
ghost use Rattle.j39_network.specs.declared.plan.Plan.{Plan};
ghost use Rattle.j39_network.specs.PlannedGroups.{HasNoSelectors};
ghost use Rattle.j39_findings.specs.WithoutSelectors.{IsWithoutSelectors};

/// Of a plan in which no group is distinguished by its data F24 says nothing, and F5 what it said before there were
/// any.
pub fn plans_without_selectors()
    ensures { (plan : Plan) → HasNoSelectors plan → IsWithoutSelectors plan }
{}
