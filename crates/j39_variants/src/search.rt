//! The first possible variant that takes some alternatives.
ghost use Rattle.std.specs.Prelude.{◌≡◌, ◌<◌, ◌≤◌, ◌++◌, ◌∷◌, [], ◌||◌, ◌==◌, ℕ, not, IfOk, MatchOption, length};
ghost use Rattle.std.specs.Prelude.{slice_index};
ghost use Rattle.std.specs.List.{list_all};
ghost use Rattle.j39_variants.specs.Variants.{FitChoices, IsFirstBehind, IsFirstTaking, NoneTakes, is_allowed, size_at};
ghost use Rattle.j39_variants.specs.Variants.{takes_all};

use crate::variant::{is_possible, takes_alternative};
use crate::{Alternative, ProductLine};
use std::alloc::{AllocError, Global};

// Whether a variant takes each of some alternatives.
fn takes_all(variant: &[usize], wanted: &[Alternative]) -> bool
    ensures { result ≡ takes_all variant.now wanted.now }
{
    wanted
        .iter()
        .all(|alternative| takes_alternative(variant, alternative))
}

// Whether a variant that takes the alternative of this place may take all of these.
fn is_allowed(wanted: &[Alternative], choice: usize, place: usize) -> bool
    ensures { result ≡ is_allowed wanted.now choice place }
{
    wanted.iter().all(|alternative| alternative.choice != choice || place == alternative.place)
}

fn with_place(alloc: Global, taken: &[usize], place: usize) -> Result<Vec<usize>, AllocError>
    ensures { IfOk result (λ v. v.items ≡ taken.now ++ place ∷ []) }
{
    let mut longer = taken.to_vec(alloc)?;
    longer.push(place)?;
    Ok(longer)
}

// How many alternatives the choice of a place has.
fn size_at(line: &ProductLine, choice: usize) -> usize
    ensures { result ≡ size_at line.now.choices.items choice }
{
    match line.choices.get(choice) {
        Some(found) => found.alternatives.len(),
        None => 0,
    }
}

// The first one that begins with the places taken.
fn behind(
    alloc: Global,
    line: &ProductLine,
    wanted: &[Alternative],
    taken: &[usize],
) -> Result<Option<Vec<usize>>, AllocError>
    requires fits { FitChoices line.now.choices.items taken.now }
    requires few { length taken.now ≤ length line.now.choices.items }
    ensures { IfOk result (λ found. MatchOption found (NoneTakes line.now wanted.now taken.now)
        (λ v. IsFirstBehind line.now wanted.now taken.now v.items)) }
{
    if !is_possible(&line.nevers, taken) {
        return Ok(None);
    }
    if taken.len() == line.choices.len() {
        if takes_all(taken, wanted) {
            return Ok(Some(taken.to_vec(alloc)?));
        }
        return Ok(None);
    }
    for place in 0..size_at(line, taken.len()) {
        if is_allowed(wanted, taken.len(), place) {
            let longer = with_place(alloc, taken, place)?;
            if let Some(found) = behind(alloc, line, wanted, &longer)? {
                return Ok(Some(found));
            }
        }
    }
    Ok(None)
}

/// The first possible variant that takes each of some alternatives, as the places of those that it takes, choice by
/// choice.
pub fn first_possible(
    alloc: Global,
    line: &ProductLine,
    wanted: &[Alternative],
) -> Result<Option<Vec<usize>>, AllocError>
    ensures { IfOk result (λ found. MatchOption found (NoneTakes line.now wanted.now [])
        (λ v. IsFirstTaking line.now wanted.now v.items)) }
{
    behind(alloc, line, wanted, &[])
}
