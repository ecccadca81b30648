//! Each variant has a plan and findings, and its plan is a part of that of each variant that covers it.
ghost use Rattle.std.specs.Prelude.{◌≡◌, ℕ, List, true};
ghost use Rattle.j39_line_findings.specs.LineFound.{AreVariantFindings};
ghost use Rattle.j39_line_findings.specs.declared.line_finding.LineFinding.{LineFinding};
ghost use Rattle.j39_line_laws.specs.Covering.{HasFullCover, IsCoveredBy};
ghost use Rattle.j39_line_laws.specs.FoundOfCovering.{AreFoundOfCovering, FullVariantsSuffice};
ghost use Rattle.j39_line_laws.specs.FoundOfCovering.{OnlyAbsenceIsReported};
ghost use Rattle.j39_network.specs.declared.plan.Plan.{Plan};
ghost use Rattle.j39_part_laws.specs.PlanParts.{IsPlanPart};
ghost use Rattle.j39_variants.specs.VariantPlans.{IsVariantPlan};
ghost use Rattle.j39_variants.specs.Variants.{IsVariant, is_possible};
ghost use Rattle.j39_variants.specs.declared.line.ProductLine.{ProductLine};

/// Where each alternative that a variant takes is covered by the one that another variant takes, its plan is a part of
/// the other one's.
pub fn covered_variants_are_parts()
    ensures { (line : ProductLine) (v w : List ℕ) (part whole : Plan) → IsCoveredBy line v w
        → IsVariantPlan line v part → IsVariantPlan line w whole → IsPlanPart part whole }
{}

/// And where it is possible, so is the other one.
pub fn covering_variants_are_possible()
    ensures { (line : ProductLine) (v w : List ℕ) → IsVariant line.choices.items v → IsVariant line.choices.items w
        → IsCoveredBy line v w → is_possible line.nevers.items v ≡ true → is_possible line.nevers.items w ≡ true }
{}

/// What is found of a variant comes by absence, or is found of each variant that covers it, at the same places in the
/// file, with at least its number of addresses or bits; on the load, where no bad number of a group is found there.
pub fn covering_variants_have_what_is_found()
    ensures { (line : ProductLine) (v w : List ℕ) (here there : List LineFinding) → IsCoveredBy line v w
        → AreVariantFindings line v here → AreVariantFindings line w there → AreFoundOfCovering here there }
{}

/// Where only absence is found of a variant, only absence is found of each variant that it covers.
pub fn only_absence_is_found_of_covered_variants()
    ensures { (line : ProductLine) (v w : List ℕ) (here there : List LineFinding) → IsCoveredBy line v w
        → AreVariantFindings line v here → AreVariantFindings line w there → OnlyAbsenceIsReported there
        → OnlyAbsenceIsReported here }
{}

/// Each variant is covered by one that takes full alternatives alone.
pub fn each_variant_has_a_full_cover()
    ensures { (line : ProductLine) (v : List ℕ) → IsVariant line.choices.items v → HasFullCover line v }
{}

/// Where only absence is found of each possible variant that takes full alternatives alone, only absence is found of
/// any possible one.
pub fn full_variants_suffice_but_for_absence()
    ensures { (line : ProductLine) → FullVariantsSuffice line }
{}

/// Each variant has a plan, and a list of all its findings: so what laws say of each plan of a variant, and of each
/// such list, they say of some.
pub fn variants_have_findings()
    ensures plans { (line : ProductLine) (variant : List ℕ) → (plan : Plan) × IsVariantPlan line variant plan }
    ensures findings { (line : ProductLine) (variant : List ℕ) → (findings : List LineFinding)
        × AreVariantFindings line variant findings }
{}
