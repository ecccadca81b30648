//! Whether a box has a variant that is in none of some others, its holes.
ghost use Rattle.std.specs.Prelude.{◌≡◌, ◌<◌, ◌&&◌, ◌||◌, ℕ, IfOk, MatchBool, MatchOption, length, filter};
ghost use Rattle.j39_variant_search.specs.VariantSearch.{box_flags};
ghost use Rattle.j39_variant_search.specs.inside.BoxParts.{hole_at, is_met};
ghost use Rattle.j39_variant_search.specs.inside.NearHoles.{HasNoneOutside, HasOutside, IsNoneBy, choices_inside};
ghost use Rattle.j39_variant_search.specs.inside.NearHoles.{empty_choices, is_by_leaving, in_either};

use crate::flags::{flag_at, has_some, hole_at, is_empty_box, is_left_at, is_met};
use crate::parts::part_behind;
use std::alloc::{AllocError, Global};

// The holes that a box meets.
fn holes_met(
    alloc: Global,
    within: &[Vec<bool>],
    holes: &[Vec<Vec<bool>>],
    near: &[usize],
) -> Result<Vec<usize>, AllocError>
    ensures { IfOk result (λ v. v.items ≡ filter (λ place. is_met within.now (hole_at holes.now place)) near.now) }
{
    near.iter()
        .copied()
        .filter(|place| is_met(within, hole_at(holes, *place)))
        .collect(alloc)
}

// By how many choices a box leaves a hole.
fn ways_out(within: &[Vec<bool>], hole: &[Vec<bool>]) -> usize {
    (0..within.len())
        .filter(|choice| is_left_at(within, hole, *choice))
        .count()
}

// Of holes that a box meets, one that it leaves by the fewest choices, as its place among them.
fn nearest(within: &[Vec<bool>], holes: &[Vec<Vec<bool>>], met: &[usize]) -> usize
    requires { 0 < length met.now }
    ensures { result < length met.now }
{
    let mut found = 0;
    let mut least = usize::MAX;
    for (index, place) in met.iter().enumerate() {
        let count = ways_out(within, hole_at(holes, *place));
        if count < least {
            found = index;
            least = count;
        }
    }
    found
}

fn empty_choices(alloc: Global, within: &[Vec<bool>]) -> Result<Vec<bool>, AllocError>
    ensures { IfOk result (λ v. v.items ≡ empty_choices within.now) }
{
    within.iter().map(|choice| !has_some(choice)).collect(alloc)
}

// The choices by which a whole box leaves a hole, and a part of it doesn't.
fn choices_inside(
    alloc: Global,
    whole: &[Vec<bool>],
    within: &[Vec<bool>],
    hole: &[Vec<bool>],
) -> Result<Vec<bool>, AllocError>
    ensures { IfOk result (λ v. v.items ≡ choices_inside whole.now within.now hole.now) }
{
    (0..within.len())
        .map(|choice| !is_left_at(within, hole, choice) && is_left_at(whole, hole, choice))
        .collect(alloc)
}

fn in_either(
    alloc: Global,
    count: usize,
    one: &[bool],
    other: &[bool],
) -> Result<Vec<bool>, AllocError>
    ensures { IfOk result (λ v. v.items ≡ in_either count one.now other.now) }
{
    (0..count)
        .map(|choice| flag_at(one, choice) || flag_at(other, choice))
        .collect(alloc)
}

// Whether one of some choices, up to the last one here, is one by which a box leaves a hole.
fn is_by_leaving(by: &[bool], within: &[Vec<bool>], hole: &[Vec<bool>], last: usize) -> bool
    ensures { result ≡ is_by_leaving by.now within.now hole.now last }
{
    (0..within.len()).any(|choice| choice <= last
        && (flag_at(by, choice) && is_left_at(within, hole, choice)))
}

// By which choices a part of a box has no variant that is in none of some holes: there is none either in the larger
// part that has of the other choices all that the whole box has. Nothing where there is one.
//
// Each variant outside leaves a hole that the part meets, first by one of the choices by which the part does, so these
// are tried in turn. Where one has none by choices in which what was tried is the part itself, the others have none
// either.
fn none_by(
    alloc: Global,
    whole: &[Vec<bool>],
    within: &[Vec<bool>],
    holes: &[Vec<Vec<bool>>],
    near: &[usize],
) -> Result<Option<Vec<bool>>, AllocError>
    requires { length whole.now ≡ length within.now }
    ensures { IfOk result (λ by. MatchOption by (HasOutside within.now holes.now near.now)
        (λ v. IsNoneBy whole.now within.now holes.now near.now v.items)) }
{
    if is_empty_box(within) {
        return Ok(Some(empty_choices(alloc, within)?));
    }
    let met = holes_met(alloc, within, holes, near)?;
    if met.is_empty() {
        return Ok(None);
    }
    let hole = hole_at(holes, met[nearest(within, holes, &met)]);
    let mut by = choices_inside(alloc, whole, within, hole)?;
    for choice in 0..within.len() {
        if is_left_at(within, hole, choice) {
            let part = part_behind(alloc, within, hole, choice)?;
            let Some(more) = none_by(alloc, whole, &part, holes, &met)? else {
                return Ok(None);
            };
            if !is_by_leaving(&more, within, hole, choice) {
                return Ok(Some(more));
            }
            by = in_either(alloc, within.len(), &by, &more)?;
        }
    }
    Ok(Some(by))
}

/// Whether a box has a variant that is in none of those holes whose places are near.
pub(crate) fn has_outside(
    alloc: Global,
    within: &[Vec<bool>],
    holes: &[Vec<Vec<bool>>],
    near: &[usize],
) -> Result<bool, AllocError>
    ensures { IfOk result (λ found. MatchBool found (HasOutside within.now holes.now near.now)
        (HasNoneOutside within.now holes.now near.now)) }
{
    match none_by(alloc, within, within, holes, near)? {
        Some(_by) => Ok(false),
        None => Ok(true),
    }
}
