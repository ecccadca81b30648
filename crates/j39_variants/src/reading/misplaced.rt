//! Alternatives that can't stand in a list of alternatives of one choice.
ghost use Rattle.std.specs.Prelude.{◌≡◌, ◌==◌, map};
ghost use Rattle.std.specs.List.{list_any};
ghost use Rattle.j39_variants.specs.ChoiceTables.{choice_labels};
ghost use Rattle.j39_variants.specs.ListTables.{is_misplaced, is_of_another, size_of};

use super::labels::named;
use super::lists::NamedAlternative;
use crate::Choice;

/// How many alternatives a choice has.
#[tactic(auto, using(crate::proofs::NamedChoices::size_of_view))]
pub fn size_of(choices: &[Choice], choice: usize) -> usize
    ensures { result ≡ size_of (map choice_labels choices.now) choice }
{
    match choices.get(choice) {
        None => 0,
        Some(found) => found.alternatives.len(),
    }
}

// Whether the first one seen is of another choice.
#[tactic(auto, unfolding(crate::specs::ListTables::is_of_another))]
fn is_of_another(choices: &[Choice], choice: usize, seen: &[NamedAlternative]) -> bool
    ensures { result ≡ is_of_another (map choice_labels choices.now) choice (map (λ n. n.label.bytes) seen.now) }
{
    match seen.first() {
        None => false,
        Some(first) => match named(choices, first.label.as_str()) {
            None => true,
            Some(found) => found.choice != choice,
        },
    }
}

fn has_choice(others: &[NamedAlternative], choice: usize) -> bool
    ensures { result ≡ list_any (λ n. n.at.choice == choice) others.now }
{
    others.iter().any(|other| other.at.choice == choice)
}

// Whether one of these is of a choice.
fn is_choice_among(others: &[NamedAlternative], choice: usize) -> bool
    ensures { result ≡ list_any (λ d. d == choice) (map (λ n. n.at.choice) others.now) }
{
    has_choice(others, choice)
}

/// Whether an alternative of a choice can't be named behind those seen, beside others.
#[tactic(auto, unfolding(crate::specs::ListTables::is_misplaced))]
pub fn is_misplaced(
    choices: &[Choice],
    others: &[NamedAlternative],
    seen: &[NamedAlternative],
    choice: usize,
) -> bool
    ensures { result ≡ is_misplaced (map choice_labels choices.now) (map (λ n. n.at.choice) others.now)
        (map (λ n. n.label.bytes) seen.now) choice }
{
    is_of_another(choices, choice, seen)
        || is_choice_among(others, choice)
        || size_of(choices, choice) <= seen.len() + 1
}
