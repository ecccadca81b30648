//! Variants, and the boxes that lists stand for.
ghost use Rattle.std.specs.Prelude.{◌≡◌, ◌==◌, ◌&&◌};
ghost use Rattle.std.specs.List.{list_any};
ghost use Rattle.j39_variants.specs.Variants.{is_in, is_possible, takes_alternative};

use crate::Alternative;

/// Whether a variant takes the alternative.
pub(crate) fn takes_alternative(variant: &[usize], alternative: &Alternative) -> bool
    ensures { result ≡ takes_alternative variant.now alternative.now }
{
    match variant.get(alternative.choice) {
        Some(place) => *place == alternative.place,
        None => false,
    }
}

// Whether it takes one of those alternatives of a list that are of a choice.
fn takes_of(variant: &[usize], list: &[Alternative], choice: usize) -> bool
    ensures { result ≡ list_any (λ b. (b.choice == choice) && takes_alternative variant.now b) list.now }
{
    list.iter().any(|other| other.choice == choice && takes_alternative(variant, other))
}

/// Whether a variant is in the box of a list. It stands for the places of the alternatives that it takes, choice by
/// choice.
pub fn is_in(variant: &[usize], list: &[Alternative]) -> bool
    ensures { result ≡ is_in variant.now list.now }
{
    list.iter()
        .all(|alternative| takes_of(variant, list, alternative.choice))
}

/// Whether a variant is in none of the boxes that aren't built.
pub fn is_possible(nevers: &[Vec<Alternative>], variant: &[usize]) -> bool
    ensures { result ≡ is_possible nevers.now variant.now }
{
    nevers.iter().all(|never| !is_in(variant, never))
}
