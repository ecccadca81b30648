//! Variants that take alternatives of a set alone.
ghost use Rattle.std.specs.Prelude.{◌≡◌, ◌-◌, ◌^◌, IfOk, filter, map, min};
ghost use Rattle.std.specs.List.{list_any};
ghost use Rattle.j39_variants.specs.Variants.{size_at};
ghost use Rattle.j39_line_check.specs.SetVariants.{AreVariantsOfSets, set_has, has_each_choice, is_set_inside};
ghost use Rattle.j39_line_check.specs.SetVariants.{count_of_choice, takes_alone, variants_of_set};

use j39_line_findings::{longer, names, names_choice};
use j39_variants::{Alternative, Choice};
use std::alloc::{AllocError, Global};

/// Whether a variant takes alternatives of a set alone. It stands for the places of the alternatives that it takes,
/// choice by choice; so may those of the first choices alone.
pub(crate) fn takes_alone(set: &[Alternative], variant: &[usize]) -> bool
    ensures { result ≡ takes_alone set.now variant.now }
{
    for (choice, place) in variant.iter().enumerate() {
        let taken = Alternative {
            choice,
            place: *place,
        };
        if !names(set, &taken) {
            return false;
        }
    }
    true
}

/// Whether a variant takes alternatives of one of these sets alone.
pub(crate) fn is_of_some_set(sets: &[Vec<Alternative>], variant: &[usize]) -> bool
    ensures { result ≡ list_any (λ set. takes_alone set.items variant.now) sets.now }
{
    sets.iter().any(|set| takes_alone(set, variant))
}

/// Whether a set has an alternative of each choice.
pub(crate) fn has_each_choice(choices: &[Choice], set: &[Alternative]) -> bool
    ensures { result ≡ has_each_choice choices.now set.now }
{
    (0..choices.len()).all(|choice| names_choice(set, choice))
}

/// Whether each alternative of the one set is in the other.
pub(crate) fn is_set_inside(one: &[Alternative], other: &[Alternative]) -> bool
    ensures { result ≡ is_set_inside one.now other.now }
{
    one.iter().all(|alternative| names(other, alternative))
}

fn keep_begun(sets: &[Vec<Alternative>], taken: &mut Vec<Vec<usize>>)
    ensures { taken.new.items ≡ filter (λ v. list_any (λ set. takes_alone set.items v.items) sets.now) taken.old.items }
{
    taken.retain(|places| is_of_some_set(sets, places));
}

/// The variants of these choices that take alternatives of one of these sets alone, each once, in order: of each the
/// places of the alternatives that it takes, choice by choice.
pub fn variants_of_sets(
    alloc: Global,
    choices: &[Choice],
    sets: &[Vec<Alternative>],
) -> Result<Vec<Vec<usize>>, AllocError>
    ensures { IfOk result (λ all. AreVariantsOfSets choices.now (map (λ set. set.items) sets.now)
        (map (λ v. v.items) all.items)) }
{
    let mut all = Vec::new(alloc);
    all.push(Vec::new(alloc))?;
    keep_begun(sets, &mut all);
    for choice in choices {
        all = longer(alloc, &all, choice.alternatives.len())?;
        keep_begun(sets, &mut all);
    }
    Ok(all)
}

fn size_at(choices: &[Choice], choice: usize) -> usize
    ensures { result ≡ size_at choices.now choice }
{
    match choices.get(choice) {
        Some(found) => found.alternatives.len(),
        None => 0,
    }
}

// How many alternatives of a choice a set has.
fn count_of_choice(choices: &[Choice], set: &[Alternative], choice: usize) -> usize
    ensures { result ≡ count_of_choice choices.now set.now choice }
{
    (0..size_at(choices, choice))
        .filter(|place| {
            names(
                set,
                &Alternative {
                    choice,
                    place: *place,
                },
            )
        })
        .count()
}

/// How many variants of these choices take alternatives of a set alone, at most so many as 64 bits hold.
pub fn variants_of_set(choices: &[Choice], set: &[Alternative]) -> u64
    ensures { result ≡ min (variants_of_set choices.now set.now) (2 ^ 64 - 1) }
{
    let mut count: u64 = 1;
    for choice in 0..choices.len() {
        count = count.saturating_mul(count_of_choice(choices, set, choice) as u64);
    }
    count
}
