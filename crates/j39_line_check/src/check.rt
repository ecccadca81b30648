//! What is found of a line.
ghost use Rattle.std.specs.Prelude.{◌≡◌, ◌++◌, [], List, IfOk, OnOk, map, true, unwrap_or};
ghost use Rattle.std.specs.List.{slice_get};
ghost use Rattle.j39_line_check.specs.LineChecks.{IsCheckOf, SomePossible};
ghost use Rattle.j39_line_check.specs.LookedTimes.{AreAnsweredTimes};
ghost use Rattle.j39_line_check.specs.inside.AddedFindings.{AreAdded, Pair, pair_counted, pair_of_condition};

use crate::answer::{LineAnswer, LookedAt, ReportedFinding};
use crate::inserting::add;
use crate::{FullVariants, Looking, look};
use j39_line_bounds::{LineTimes, no_times};
use j39_line_findings::Witnessed;
use j39_line_laws::{
    full_variants_have_what_is_found, nevers_change_nothing_that_is_built,
    old_needs_are_found_of_full_variants, what_is_reported_is_what_variants_have,
    what_is_there_is_found,
};
use j39_line_witnesses::{FoundByCondition, found_by_conditions, is_any_variant_possible};
use j39_variants::ProductLine;
use std::alloc::{AllocError, Global};

fn copied(alloc: Global, variant: &[usize]) -> Result<Vec<usize>, AllocError>
    ensures { IfOk result (λ v. v.items ≡ variant.now) }
{
    variant.to_vec(alloc)
}

// Those that are found by conditions.
fn reported_by_conditions(
    alloc: Global,
    found: &[FoundByCondition],
) -> Result<Vec<ReportedFinding>, AllocError>
    ensures { IfOk result (λ reported. AreAdded (map pair_of_condition found.now) reported.items) }
{
    let mut reported = Vec::new(alloc);
    for one in found {
        let variant = copied(alloc, &one.witness)?;
        add(
            &mut reported,
            ReportedFinding {
                finding: one.finding,
                variant,
            },
        )?;
    }
    Ok(reported)
}

// The variant at a place.
fn variant_at(
    alloc: Global,
    variants: &[Vec<usize>],
    place: usize,
) -> Result<Vec<usize>, AllocError>
    ensures { IfOk result (λ v. v.items ≡ unwrap_or (slice_get (map (λ v. v.items) variants.now) place) []) }
{
    match variants.get(place) {
        Some(variant) => Ok(variant.to_vec(alloc)?),
        None => Ok(Vec::new(alloc)),
    }
}

// Adds those that count what is there.
fn add_counted(
    alloc: Global,
    reported: &mut Vec<ReportedFinding>,
    variants: &[Vec<usize>],
    counted: &[Witnessed],
) -> Result<(), AllocError>
    ensures { OnOk result ((all : List Pair) → AreAdded all reported.old.items
        → AreAdded (all ++ map (pair_counted (map (λ v. v.items) variants.now)) counted.now) reported.new.items) }
{
    for witnessed in counted {
        let variant = variant_at(alloc, variants, witnessed.variant)?;
        add(
            reported,
            ReportedFinding {
                finding: witnessed.finding,
                variant,
            },
        )?;
    }
    Ok(())
}

// Both those that are found by conditions and those that are found of full variants.
fn reported_of_full(
    alloc: Global,
    found: &[FoundByCondition],
    full: &FullVariants,
) -> Result<Vec<ReportedFinding>, AllocError>
    ensures { IfOk result (λ reported. AreAdded (map pair_of_condition found.now
        ++ map (pair_counted (map (λ v. v.items) full.now.variants.items)) full.now.reported.items) reported.items) }
{
    let mut reported = reported_by_conditions(alloc, found)?;
    add_counted(alloc, &mut reported, &full.variants, &full.reported)?;
    Ok(reported)
}

// What is found of a line of which some variant is possible, with the times of those at which is looked, where these
// are asked for.
fn found_of(
    alloc: Global,
    line: &ProductLine,
    timed: bool,
) -> Result<(LineAnswer, LineTimes), AllocError>
    ensures answer { IfOk result (λ found. SomePossible line.now → IsCheckOf line.now found.0) }
    ensures times { timed ≡ true → IfOk result (λ found. AreAnsweredTimes line.now found.0 found.1) }
{
    what_is_reported_is_what_variants_have();
    full_variants_have_what_is_found();
    old_needs_are_found_of_full_variants();
    nevers_change_nothing_that_is_built();
    what_is_there_is_found();
    let found = found_by_conditions(alloc, line)?;
    match look(alloc, line, timed)? {
        Looking::Few(full) => {
            let reported = reported_of_full(alloc, &found, &full)?;
            let answer = LineAnswer::Found(reported, LookedAt::Full(full.variants));
            Ok((answer, full.times))
        }
        Looking::Many(count) => {
            let reported = reported_by_conditions(alloc, &found)?;
            let times = no_times(alloc, line)?;
            let answer = LineAnswer::Found(reported, LookedAt::TooMany(count));
            Ok((answer, times))
        }
    }
}

// What is found of a line, with the times of the variants at which is looked, where these are asked for.
fn answer_line(
    alloc: Global,
    line: &ProductLine,
    timed: bool,
) -> Result<(LineAnswer, LineTimes), AllocError>
    ensures answer { IfOk result (λ found. IsCheckOf line.now found.0) }
    ensures times { timed ≡ true → IfOk result (λ found. AreAnsweredTimes line.now found.0 found.1) }
{
    let possible = is_any_variant_possible(alloc, line)?;
    if possible {
        let found = found_of(alloc, line, timed)?;
        return Ok(found);
    }
    let times = no_times(alloc, line)?;
    Ok((LineAnswer::NoVariant, times))
}

/// What is found of a line of vehicles: what some possible variant has, each finding once, with a variant that has it.
pub fn check_line(alloc: Global, line: &ProductLine) -> Result<LineAnswer, AllocError>
    ensures { IfOk result (IsCheckOf line.now) }
{
    let (answer, _times) = answer_line(alloc, line, false)?;
    Ok(answer)
}

/// The same, with the times of the variants at which is looked, where the bus of the line is known: each of these
/// variants is answered once for both.
pub fn check_line_with_times(
    alloc: Global,
    line: &ProductLine,
) -> Result<(LineAnswer, LineTimes), AllocError>
    ensures answer { IfOk result (λ found. IsCheckOf line.now found.0) }
    ensures times { IfOk result (λ found. AreAnsweredTimes line.now found.0 found.1) }
{
    let found = answer_line(alloc, line, true)?;
    Ok(found)
}
