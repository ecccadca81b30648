//! The laws of needs.
ghost use Rattle.j39_network.specs.declared.plan.Plan.{Plan};
ghost use Rattle.j39_findings.specs.Findings.{Clean};
ghost use Rattle.j39_network.specs.Needs.{AreNeedsMet};
ghost use Rattle.j39_findings.specs.WithoutNeeds.{IsWithoutNeeds};

/// In a clean plan some flow brings each unit what it needs.
pub fn needs_are_met()
    ensures { (plan : Plan) → Clean plan → AreNeedsMet plan }
{}

/// Of a plan without needs F19 says nothing.
pub fn plans_without_needs()
    ensures { (plan : Plan) → IsWithoutNeeds plan }
{}
