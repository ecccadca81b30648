//! What a check of a line is good for.
ghost use Rattle.std.specs.Prelude.{List, ℕ, None, []};
ghost use Rattle.j39_variants.specs.declared.line.ProductLine.{ProductLine};
ghost use Rattle.j39_line_check.specs.LineChecks.{AreReported};
ghost use Rattle.j39_line_findings.specs.PossibleVariants.{IsPossible};
ghost use Rattle.j39_line_text.specs.LineCheckText.{IsCertifiedVariant};

use j39_findings::clean_where_none;
use j39_line_check::nothing_reported_is_nothing_found;
use j39_plan_text::clean_plans_are_certified;

/// Where nothing is reported of a line, each possible variant is certified: its plan is clean, and all holds of it that
/// holds of such a plan.
pub(crate) fn variants_without_findings_are_certified()
    ensures { (line : ProductLine) → AreReported line None [] → (variant : List ℕ) → IsPossible line variant
        → IsCertifiedVariant line variant }
{
    clean_where_none();
    nothing_reported_is_nothing_found();
    clean_plans_are_certified();
}
