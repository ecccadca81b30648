//! Laws of what is reported of variants of a line of vehicles.
ghost use Rattle.std.specs.Prelude.{ℕ};
ghost use Rattle.j39_variants.specs.declared.line.ProductLine.{ProductLine};
ghost use Rattle.j39_line_bounds.specs.LineStandings.{HasOneStanding, StandingsAreExact};
ghost use Rattle.j39_line_bounds.specs.LineTimes.{TimesBoundThese, ReportedNumbersBoundTimes};

/// Where this is reported of all possible variants, a unit that is reported to stay does in each that has it, and each
/// unit that does is reported so.
pub fn standings_are_exact()
    ensures { StandingsAreExact }
{}

/// One thing is reported of a unit.
pub fn units_have_one_standing()
    ensures { (line : ProductLine) (u : ℕ) → HasOneStanding line u }
{}

/// Each time that is reported of some variants bounds that of each of them, and is that of one; so does the load.
pub fn times_bound_these()
    ensures { TimesBoundThese }
{}

/// Where a number is reported, a variant whose times are no worse has no larger one of its kind: where a flow is
/// reported to be in time, it is in this variant.
pub fn reported_numbers_bound_times()
    ensures { ReportedNumbersBoundTimes }
{}
