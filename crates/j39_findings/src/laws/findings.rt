//! Laws of the findings.
ghost use Rattle.std.specs.Prelude.{◌≡◌, ◌↔◌, []};
ghost use Rattle.j39_network.specs.declared.plan.Plan.{Plan};
ghost use Rattle.j39_findings.specs.Findings.{AreFindings, Clean};
ghost use Rattle.j39_findings.specs.Found.{found};
ghost use Rattle.j39_findings.specs.CleanParts.{CleanParts};

/// The list of findings has exactly what holds of the plan, in order.
pub fn found_exactly()
    ensures { (plan : Plan) → AreFindings plan (found plan) }
{}

/// A plan is clean where its list of findings is empty.
pub fn clean_where_none()
    ensures { (plan : Plan) → (found plan ≡ []) ↔ Clean plan }
{}

/// What a clean plan keeps.
pub fn clean_parts()
    ensures { (plan : Plan) → Clean plan → CleanParts plan }
{}
