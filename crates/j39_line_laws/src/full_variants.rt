//! What is reported of the full variants of a line of vehicles is reported of all possible ones.
ghost use Rattle.j39_variants.specs.declared.line.ProductLine.{ProductLine};
ghost use Rattle.j39_line_findings.specs.declared.full.LineNevers.{LineNevers};
ghost use Rattle.j39_line_laws.specs.FoundOfFull.{FullVariantsHaveWhatIsFound, ReportedOfFullIsReportedOfAll};
ghost use Rattle.j39_line_laws.specs.OldNeeds.{EachHasFullForNeed, OldNeedsAreFoundOfFull};
ghost use Rattle.j39_line_laws.specs.OldNeeds.{OldNeedsReportedOfFullAreReportedOfAll};
ghost use Rattle.j39_line_laws.specs.WithoutNevers.{FullVariantsCountAll, NeversChangeNothingBuilt};

/// What is found of a possible variant comes by absence, or is found of a possible one that takes full alternatives
/// alone, at the same places in the file, with at least its number of addresses or bits; on the load, where no bad
/// number of a group is found there.
pub fn full_variants_have_what_is_found()
    ensures { (line : ProductLine) → FullVariantsHaveWhatIsFound line }
{}

/// So what is reported of each of these is reported of each possible variant, with at least its number of addresses or
/// bits.
pub fn reported_of_full_variants_is_reported_of_all()
    ensures { (line : ProductLine) → ReportedOfFullIsReportedOfAll line }
{}

/// Each possible variant in which a need is asked for is covered by a possible one that takes alternatives alone that
/// are full for the need: it is asked for there, and the same flows of the file meet it.
pub fn each_variant_has_a_full_cover_for_a_need()
    ensures { (line : ProductLine) → EachHasFullForNeed line }
{}

/// What is too old in a possible variant is too old in a possible one that is full for the need, where no bad number of
/// a group is found of this one.
pub fn old_needs_are_found_of_full_variants()
    ensures { (line : ProductLine) → OldNeedsAreFoundOfFull line }
{}

/// So where it is reported of each variant that is full for the need, it is reported of each possible one.
pub fn old_needs_reported_of_full_variants_are_reported_of_all()
    ensures { (line : ProductLine) → OldNeedsReportedOfFullAreReportedOfAll line }
{}

/// A variant has the same plan and findings whatever isn't built, and is possible where all is: so what is reported of
/// the full variants of a line without its nevers is reported of each of its possible variants.
pub fn nevers_change_nothing_that_is_built()
    ensures { NeversChangeNothingBuilt }
{}

/// Where nothing is found of the full variants of a line, with or without its nevers, nor of those that are full for a
/// need that asks for an age, that counts what is there, nothing that does is found of any possible variant of the
/// line.
pub fn full_variants_count_all_that_is_there()
    ensures { (line : ProductLine) (nevers : LineNevers) → FullVariantsCountAll line nevers }
{}
