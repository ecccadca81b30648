//! Laws of what is reported of a line of vehicles.
ghost use Rattle.j39_line_check.specs.LineChecks.{NothingReportedIsNothingFound};

/// Where nothing is reported, no possible variant has a finding.
pub fn nothing_reported_is_nothing_found()
    ensures { NothingReportedIsNothingFound }
{}
