//! The first variant that is in a box and in none of some others.
ghost use Rattle.std.specs.Prelude.{◌≡◌, ◌++◌, ◌∷◌, [], ◌<◌, ℕ, IfOk, MatchOption, length, filter};
ghost use Rattle.std.specs.List.{range_with_len};
ghost use Rattle.j39_variant_search.specs.VariantSearch.{IsFirstOutside, NoneOutside, box_flags, boxes_flags};
ghost use Rattle.j39_variant_search.specs.inside.BoxParts.{hole_at, is_met};
ghost use Rattle.j39_variant_search.specs.inside.NearHoles.{IsNextPlace, NoneBegins};

use crate::flags::{flags_at, hole_at, is_met};
use crate::outside::has_outside;
use crate::parts::part_taken;
use std::alloc::{AllocError, Global};

fn with_place(alloc: Global, taken: &[usize], place: usize) -> Result<Vec<usize>, AllocError>
    ensures { IfOk result (λ v. v.items ≡ taken.now ++ place ∷ []) }
{
    let mut longer = taken.to_vec(alloc)?;
    longer.push(place)?;
    Ok(longer)
}

// The first alternative of the next choice with which a variant outside goes on that begins with some places.
fn next_place(
    alloc: Global,
    within: &[Vec<bool>],
    holes: &[Vec<Vec<bool>>],
    near: &[usize],
    taken: &[usize],
) -> Result<Option<usize>, AllocError>
    requires { length taken.now < length within.now }
    ensures { IfOk result (λ found. MatchOption found (NoneBegins within.now holes.now near.now taken.now)
        (IsNextPlace within.now holes.now near.now taken.now)) }
{
    for place in 0..flags_at(within, taken.len()).len() {
        let longer = with_place(alloc, taken, place)?;
        let part = part_taken(alloc, within, &longer)?;
        if has_outside(alloc, &part, holes, near)? {
            return Ok(Some(place));
        }
    }
    Ok(None)
}

// Of all holes those that a box meets.
fn all_met(
    alloc: Global,
    within: &[Vec<bool>],
    holes: &[Vec<Vec<bool>>],
) -> Result<Vec<usize>, AllocError>
    ensures { IfOk result (λ v. v.items ≡ filter (λ place. is_met within.now (hole_at holes.now place))
        (range_with_len 0 (length holes.now))) }
{
    (0..holes.len())
        .filter(|place| is_met(within, hole_at(holes, *place)))
        .collect(alloc)
}

/// The first variant that is in a box and in none of the others, as the places of the alternatives that it takes,
/// choice by choice. A box reports choice by choice, and place by place, which alternatives it has; one of more or
/// fewer choices has no variant in common with it.
///
/// The time is exponential in the choices at worst. Takes memory for the search.
pub fn first_outside(
    alloc: Global,
    within: &[Vec<bool>],
    holes: &[Vec<Vec<bool>>],
) -> Result<Option<Vec<usize>>, AllocError>
    ensures { IfOk result (λ found. MatchOption found (NoneOutside (box_flags within.now) (boxes_flags holes.now))
        (λ v. IsFirstOutside (box_flags within.now) (boxes_flags holes.now) v.items)) }
{
    let near = all_met(alloc, within, holes)?;
    if !has_outside(alloc, within, holes, &near)? {
        return Ok(None);
    }
    let mut taken = Vec::new(alloc);
    while taken.len() < within.len() {
        match next_place(alloc, within, holes, &near, &taken)? {
            Some(place) => taken.push(place)?,
            None => return Ok(None),
        }
    }
    Ok(Some(taken))
}
