//! What stands behind the line of a finding.
ghost use Rattle.j39_line_check.specs.ReportedConditions.{ReportedIsCondition, ReportedIsHad, ReportedLeads};
ghost use Rattle.j39_line_check.specs.ReportedConditions.{ReportedMayBeAll};
ghost use Rattle.j39_line_check.specs.ReportedOfLines.{ReportedOfLineIsHad};

/// Of a finding that goes by conditions: a variant that takes those alternatives of its witness that are reported with
/// it meets one of its conditions, as the witness does.
pub fn what_is_reported_is_a_condition()
    ensures { ReportedIsCondition }
{}

/// With each other finding, but for a flow that is asked for too often, all alternatives of its witness are reported,
/// so that no other variant takes them.
pub fn what_is_reported_may_be_all()
    ensures { ReportedMayBeAll }
{}

/// Of any finding: a variant that takes those alternatives of its witness that are reported with it has the finding
/// too.
pub fn findings_are_had_by_what_is_reported()
    ensures { ReportedIsHad }
{}

/// The witness is the first possible variant that takes the alternatives that are reported with the finding, unless
/// this is of a flow that is asked for too often: then the witness is the first full variant, and others before it may
/// take them.
pub fn what_is_reported_leads_to_witnesses()
    ensures { ReportedLeads }
{}

/// Of all that is reported of a line: each possible variant that takes the alternatives reported with a finding has it.
pub fn reported_findings_are_had()
    ensures { ReportedOfLineIsHad }
{}
