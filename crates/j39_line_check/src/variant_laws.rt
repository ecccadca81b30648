//! Laws of full variants.
ghost use Rattle.j39_variants.specs.declared.line.ProductLine.{ProductLine};
ghost use Rattle.j39_line_findings.specs.declared.full.FullAlternatives.{FullAlternatives};
ghost use Rattle.j39_line_check.specs.LookedAtLaws.{FullVariantsAreLookedAt, NeedsHaveTheirLists};
ghost use Rattle.j39_line_check.specs.SetVariantLaws.{HasOneNumber, VariantsAreOfSets};

/// A variant takes alternatives of a set alone where each that it takes is in the set, or where it is in the box of the
/// set, and this names some of each choice.
pub fn variants_are_of_sets()
    ensures { VariantsAreOfSets }
{}

/// A line has one number of full variants.
pub fn number_of_variants_is_one()
    ensures { (line : ProductLine) (full : FullAlternatives) → HasOneNumber line full }
{}

/// Of each need those alternatives are reported that are full for it.
pub fn needs_have_their_full_alternatives()
    ensures { NeedsHaveTheirLists }
{}

/// Each possible variant is looked at that takes full alternatives of the line alone, or those alone that are full for
/// a need.
pub fn full_variants_are_looked_at()
    ensures { FullVariantsAreLookedAt }
{}
