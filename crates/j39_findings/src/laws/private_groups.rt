//! The laws of private groups.
ghost use Rattle.j39_network.specs.declared.plan.Plan.{Plan};
ghost use Rattle.j39_findings.specs.Findings.{Clean};
ghost use Rattle.j39_network.specs.PrivateGroups.{HasNoPrivate, OneGroupFits};
ghost use Rattle.j39_findings.specs.WithoutPrivate.{IsFoundAsBefore};

/// In a clean plan a message of some number, from some unit to another or to all, can be one of one group at most:
/// private groups of one number are distinguished by who sends them to whom.
pub fn one_group_fits()
    ensures { (plan : Plan) → Clean plan → OneGroupFits plan }
{}

/// Of a plan without private groups F4 and F5 say what they said before there were any, and F13 says nothing.
pub fn plans_without_private_groups()
    ensures { (plan : Plan) → HasNoPrivate plan → IsFoundAsBefore plan }
{}
