//! Laws of lines of vehicles.
ghost use Rattle.std.specs.Prelude.{List};
ghost use Rattle.toml.specs.Data.{Members};
ghost use Rattle.j39_variants.specs.declared.line.Alternative.{Alternative};
ghost use Rattle.j39_variants.specs.declared.line.ProductLine.{ProductLine};
ghost use Rattle.j39_variants.specs.LineLaws.{HasOneFirst, IsOnePlan};

/// A plan without choices has one variant, whose plan it is.
pub fn a_plan_without_choices_has_one_variant()
    ensures { (tree : Members) (line : ProductLine) → IsOnePlan tree line }
{}

/// Of the possible variants that take some alternatives one is the first.
pub fn one_variant_is_the_first()
    ensures { (line : ProductLine) (wanted : List Alternative) → HasOneFirst line wanted }
{}
