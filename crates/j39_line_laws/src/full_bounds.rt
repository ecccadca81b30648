//! What is reported of the units and of the times of full variants is reported of all possible ones.
ghost use Rattle.j39_variants.specs.declared.line.ProductLine.{ProductLine};
ghost use Rattle.j39_line_findings.specs.declared.full.LineNevers.{LineNevers};
ghost use Rattle.j39_line_laws.specs.StayingOfFull.{FullVariantsReportOfUnits, FullVariantsReportWhoStays};
ghost use Rattle.j39_line_laws.specs.TimesOfFull.{FlowsOfFullBoundAll, NeedsOfFullBoundAll};

/// What is reported of the units of the possible full variants is reported of those of all possible ones: a unit that
/// stays in each of them that has it stays in each possible one that has it.
pub fn full_variants_report_who_stays()
    ensures { (line : ProductLine) → FullVariantsReportWhoStays line }
{}

/// With or without what isn't built, a unit that stays in each full variant that has it stays in each possible one that
/// has it, and one that no full variant has is in no possible one.
pub fn full_variants_report_of_units()
    ensures { (line : ProductLine) (nevers : LineNevers) → FullVariantsReportOfUnits line nevers }
{}

/// Where no bad number of a group is found of the full variants of a line, with or without its nevers, what bounds
/// their flows and their load bounds those of each possible variant.
pub fn flows_of_full_variants_bound_all()
    ensures { (line : ProductLine) (nevers : LineNevers) → FlowsOfFullBoundAll line nevers }
{}

/// And what bounds a need in each variant that is full for it bounds it in each possible one.
pub fn needs_of_full_variants_bound_all()
    ensures { (line : ProductLine) (nevers : LineNevers) → NeedsOfFullBoundAll line nevers }
{}
