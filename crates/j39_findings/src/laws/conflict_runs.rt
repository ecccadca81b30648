//! The law of runs that show a conflict.
ghost use Rattle.j39_network.specs.declared.plan.Plan.{Plan};
ghost use Rattle.j39_findings.specs.declared.checking.finding.Finding.{Finding};
ghost use Rattle.j39_findings.specs.ConflictRuns.{RunsAreExact};

/// There is a run exactly where the finding reports of two fixed units of the plan that have one address and can't be
/// one, and it begins with the unit of the larger NAME.
pub fn conflict_runs_are_exact()
    ensures { (plan : Plan) (finding : Finding) → RunsAreExact plan finding }
{}
