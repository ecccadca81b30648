//! Labels of alternatives, and what they name.
ghost use Rattle.std.specs.Prelude.{◌≡◌, false, true, map, option_map, option_and_then, MatchOption, position};
ghost use Rattle.std.specs.Prelude.{slice_get};
ghost use Rattle.std.specs.List.{list_any};
ghost use Rattle.std.specs.Str.{bytes_eq};
ghost use Rattle.j39_id.specs.LabelForm.{is_label};
ghost use Rattle.j39_plan.specs.FlowTables.{place_of};
ghost use Rattle.j39_plan.specs.LabelsSeen.{is_label_among};
ghost use Rattle.j39_variants.specs.ChoiceTables.{choice_labels};
ghost use Rattle.j39_variants.specs.ListTables.{named_in};

use crate::{Alternative, Choice};
use arrayvec::ArrayString;
use j39_id::Label;
use j39_toml::is_label;

/// A label, where the text is one.
pub fn label_of(text: &str) -> Option<Label>
    ensures { MatchOption result (is_label text.now ≡ false) (λ l. (is_label text.now ≡ true) × (l.bytes ≡ text.now)) }
{
    if !is_label(text) {
        return None;
    }
    match ArrayString::from(text) {
        Ok(label) => Some(label),
        Err(_) => None,
    }
}

fn is_spelled(labels: &[Label], text: &str) -> bool
    ensures { result ≡ list_any (λ l. bytes_eq l.bytes text.now) labels.now }
{
    labels.iter().any(|label| label.as_str() == text)
}

/// Whether one of the labels is spelled so.
#[tactic(auto, using(j39_plan::proofs::Labelled::is_taken_view))]
pub fn is_among(labels: &[Label], text: &str) -> bool
    ensures { result ≡ is_label_among (map (λ l. l.bytes) labels.now) text.now }
{
    is_spelled(labels, text)
}

fn first_place(labels: &[Label], text: &str) -> Option<usize>
    ensures { result ≡ position (λ l. bytes_eq l.bytes text.now) labels.now }
{
    labels.iter().position(|label| label.as_str() == text)
}

#[tactic(auto, using(j39_plan::proofs::Labelled::place_of_view))]
fn place_of(labels: &[Label], text: &str) -> Option<usize>
    ensures { result ≡ place_of (map (λ l. l.bytes) labels.now) text.now }
{
    first_place(labels, text)
}

fn choice_of(choices: &[Choice], text: &str) -> Option<usize>
    ensures { result ≡ position (λ c. is_label_among (choice_labels c) text.now) choices.now }
{
    choices
        .iter()
        .position(|choice| is_among(&choice.alternatives, text))
}

fn has_alternative(choices: &[Choice], text: &str) -> bool
    ensures { result ≡ list_any (λ c. is_label_among (choice_labels c) text.now) choices.now }
{
    choices
        .iter()
        .any(|choice| is_among(&choice.alternatives, text))
}

/// Whether an alternative of one of the choices is spelled so.
pub fn is_in_choices(choices: &[Choice], text: &str) -> bool
    ensures { result ≡ list_any (λ labels. is_label_among labels text.now) (map choice_labels choices.now) }
{
    has_alternative(choices, text)
}

fn place_in(choices: &[Choice], choice: usize, text: &str) -> Option<usize>
    ensures { result ≡ option_and_then (λ c. place_of (choice_labels c) text.now) (slice_get choices.now choice) }
{
    match choices.get(choice) {
        None => None,
        Some(found) => place_of(&found.alternatives, text),
    }
}

/// The alternative of a label.
#[tactic(auto, using(crate::proofs::NamedChoices::named_view))]
pub fn named(choices: &[Choice], text: &str) -> Option<Alternative>
    ensures { option_map (λ a. (a.choice, a.place)) result ≡ named_in (map choice_labels choices.now) text.now }
{
    match choice_of(choices, text) {
        None => None,
        Some(choice) => match place_in(choices, choice, text) {
            None => None,
            Some(place) => Some(Alternative { choice, place }),
        },
    }
}
