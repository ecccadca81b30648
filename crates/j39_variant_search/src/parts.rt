//! Parts of a box.
ghost use Rattle.std.specs.Prelude.{◌≡◌, ◌==◌, ℕ, IfOk};
ghost use Rattle.std.specs.List.{slice_get};
ghost use Rattle.j39_variants.specs.VariantPlans.{flag_at};
ghost use Rattle.j39_variant_search.specs.VariantSearch.{box_flags};
ghost use Rattle.j39_variant_search.specs.inside.BoxParts.{IsBoxPart, flags_with, is_behind, is_kept, is_taken_at};

use crate::flags::{flag_at, flags_at};
use std::alloc::{AllocError, Global};

// Whether an alternative of a choice stays in the part that leaves a hole by the first one.
fn is_kept(first: usize, choice: usize, in_hole: bool) -> bool
    ensures { result ≡ is_kept first choice in_hole }
{
    if choice < first {
        in_hole
    } else {
        choice != first || !in_hole
    }
}

fn flags_behind(
    alloc: Global,
    flags: &[bool],
    hole: &[bool],
    first: usize,
    choice: usize,
) -> Result<Vec<bool>, AllocError>
    ensures { IfOk result (λ v. v.items ≡ flags_with
        (λ place. is_kept first choice (flag_at hole.now place)) flags.now) }
{
    flags
        .iter()
        .enumerate()
        .map(|(place, flag)| *flag && is_kept(first, choice, flag_at(hole, place)))
        .collect(alloc)
}

/// The part of a box whose variants leave a hole first by a choice.
pub(crate) fn part_behind(
    alloc: Global,
    within: &[Vec<bool>],
    hole: &[Vec<bool>],
    first: usize,
) -> Result<Vec<Vec<bool>>, AllocError>
    ensures { IfOk result (λ v. IsBoxPart (is_behind (box_flags hole.now) first) (box_flags within.now)
        (box_flags v.items)) }
{
    let mut part = Vec::new(alloc);
    for (choice, flags) in within.iter().enumerate() {
        part.push(flags_behind(alloc, flags, flags_at(hole, choice), first, choice)?)?;
    }
    Ok(part)
}

// Whether one that begins with some places may take this one of a choice.
fn is_taken_at(taken: &[usize], choice: usize, place: usize) -> bool
    ensures { result ≡ is_taken_at taken.now choice place }
{
    match taken.get(choice) {
        Some(other) => place == *other,
        None => true,
    }
}

fn flags_taken(
    alloc: Global,
    flags: &[bool],
    taken: &[usize],
    choice: usize,
) -> Result<Vec<bool>, AllocError>
    ensures { IfOk result (λ v. v.items ≡ flags_with (is_taken_at taken.now choice) flags.now) }
{
    flags
        .iter()
        .enumerate()
        .map(|(place, flag)| *flag && is_taken_at(taken, choice, place))
        .collect(alloc)
}

/// The part of a box that begins with some places.
pub(crate) fn part_taken(
    alloc: Global,
    within: &[Vec<bool>],
    taken: &[usize],
) -> Result<Vec<Vec<bool>>, AllocError>
    ensures { IfOk result (λ v. IsBoxPart (is_taken_at taken.now) (box_flags within.now) (box_flags v.items)) }
{
    let mut part = Vec::new(alloc);
    for (choice, flags) in within.iter().enumerate() {
        part.push(flags_taken(alloc, flags, taken, choice)?)?;
    }
    Ok(part)
}
