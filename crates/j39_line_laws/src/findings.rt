//! Findings of variants by their conditions.
ghost use Rattle.j39_line_laws.specs.ByConditions.{FindingsGoByConditions};

/// A finding that goes by conditions is one of a variant exactly where this meets one of them, and it comes by absence
/// or is found of the file's own plan.
pub fn findings_go_by_conditions()
    ensures { FindingsGoByConditions }
{}
