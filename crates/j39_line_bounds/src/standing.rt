//! Which units of a line of vehicles stay, in each of some variants that has them.
ghost use Rattle.std.specs.Prelude.{◌≡◌, ◌∷◌, ◌++◌, [], ℕ, List, IfOk, length, map};
ghost use Rattle.std.specs.List.{range_with_len};
ghost use Rattle.j39_findings.specs.Standing.{stays_of};
ghost use Rattle.j39_line_findings.specs.AllVariants.{IsOneOf};
ghost use Rattle.j39_line_bounds.specs.LineStandings.{AreStandingsAmong};
ghost use Rattle.j39_line_bounds.specs.declared.standing.LineStanding.TheVariants.{NoVariant};
ghost use Rattle.j39_line_bounds.specs.inside.StandingSteps.{standing_at, standing_with, stays_in_variant};
ghost use Rattle.j39_line_bounds.specs.inside.StandingSteps.{with_variant};

use j39_findings::Standing;
use j39_line_findings::is_unit_there;
use j39_network::UnitPlan;
use j39_variants::{ProductLine, plan_of};
use std::alloc::{AllocError, Global};

/// What is reported of a unit of a line, in some of its variants.
#[derive(Clone, Copy)]
pub enum LineStanding {
    /// None of them has it.
    NoVariant,
    /// It stays in each of them that has it.
    Stays,
    /// In one of them that has it it may move.
    MayMove,
}

// Whether a unit stays in a variant in whose plan these do; none where it isn't there.
fn stays_in_variant(
    line: &ProductLine,
    variant: &[usize],
    standing: &Standing,
    place: usize,
) -> Option<bool>
    ensures { result ≡ stays_in_variant line.now variant.now (stays_of standing.now) place }
{
    match line.plan.units.get(place) {
        Some(unit) => {
            if is_unit_there(line, variant, place) {
                Some(standing.stays(unit))
            } else {
                None
            }
        }
        None => None,
    }
}

// What is reported of a unit, with one variant more.
fn with_variant(so_far: LineStanding, here: Option<bool>) -> LineStanding
    ensures { result ≡ with_variant so_far here }
{
    match here {
        None => so_far,
        Some(false) => LineStanding::MayMove,
        Some(true) => match so_far {
            LineStanding::NoVariant | LineStanding::Stays => LineStanding::Stays,
            LineStanding::MayMove => LineStanding::MayMove,
        },
    }
}

fn standing_at(standings: &[LineStanding], place: usize) -> LineStanding
    ensures { result ≡ standing_at standings.now place }
{
    match standings.get(place) {
        Some(standing) => *standing,
        None => LineStanding::NoVariant,
    }
}

fn standing_with(
    line: &ProductLine,
    variant: &[usize],
    standing: &Standing,
    so_far: &[LineStanding],
    place: usize,
) -> LineStanding
    ensures { result ≡ standing_with line.now variant.now (stays_of standing.now) so_far.now place }
{
    with_variant(
        standing_at(so_far, place),
        stays_in_variant(line, variant, standing, place),
    )
}

fn each_with(
    alloc: Global,
    line: &ProductLine,
    variant: &[usize],
    standing: &Standing,
    so_far: &[LineStanding],
) -> Result<Vec<LineStanding>, AllocError>
    ensures { IfOk result (λ v. v.items ≡ map (standing_with line.now variant.now (stays_of standing.now) so_far.now)
        (range_with_len 0 (length so_far.now))) }
{
    (0..so_far.len())
        .map(|place| standing_with(line, variant, standing, so_far, place))
        .collect(alloc)
}

// What is reported of each unit, with one variant more.
fn standings_with(
    alloc: Global,
    line: &ProductLine,
    variant: &[usize],
    so_far: &[LineStanding],
) -> Result<Vec<LineStanding>, AllocError>
    ensures { IfOk result (λ v. (variants : List (List ℕ)) → AreStandingsAmong (IsOneOf variants) line.now so_far.now
        → AreStandingsAmong (IsOneOf (variants ++ variant.now ∷ [])) line.now v.items) }
{
    let plan = plan_of(alloc, line, variant)?;
    let standing = Standing::new(&plan);
    let standings = each_with(alloc, line, variant, &standing, so_far)?;
    Ok(standings)
}

// What is reported of each unit, in no variant.
fn no_standings(alloc: Global, units: &[UnitPlan]) -> Result<Vec<LineStanding>, AllocError>
    ensures { IfOk result (λ v. v.items ≡ map (λ _. NoVariant) units.now) }
{
    units
        .iter()
        .map(|_unit| LineStanding::NoVariant)
        .collect(alloc)
}

/// What is reported of each unit of a line, in order, in these variants: the places of the alternatives that each
/// takes, choice by choice.
pub fn line_standings(
    alloc: Global,
    line: &ProductLine,
    variants: &[Vec<usize>],
) -> Result<Vec<LineStanding>, AllocError>
    ensures { IfOk result (λ v. AreStandingsAmong (IsOneOf (map (λ v. v.items) variants.now)) line.now v.items) }
{
    let mut standings = no_standings(alloc, &line.plan.units)?;
    for variant in variants {
        standings = standings_with(alloc, line, variant, &standings)?;
    }
    Ok(standings)
}
