//! What is reported by conditions.
ghost use Rattle.j39_line_laws.specs.ReportedByConditions.{ReportExactly};

/// Of the findings that go by conditions exactly those are reported that some possible variant has, each with the first
/// one that has it.
pub fn what_is_reported_is_what_variants_have()
    ensures { ReportExactly }
{}
