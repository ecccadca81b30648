//! Labels, and what they name.
ghost use Rattle.std.specs.Prelude.{◌≡◌, ℕ, List, ◌++◌, map, position, true};
ghost use Rattle.std.specs.List.{list_any};
ghost use Rattle.std.specs.Str.{bytes_eq};
ghost use Rattle.j39_plan.specs.TextKinds.{takes};
ghost use Rattle.j39_plan.specs.LabelsSeen.{repeated_faults};
ghost use Rattle.j39_toml.specs.Outcome.{Gives};
ghost use Rattle.j39_plan.specs.FlowTables.{place_of};

use super::signals::PlannedSignal;
use super::text_kind::TextKind;
use super::{Cause, Key, PlanError, Table};
use j39_network::{GroupPlan, TextPlan, UnitPlan};
use j39_signal::Signal;
use j39_toml::refused;

/// What has a label.
pub trait Labelled {
    ghost use Rattle.std.specs.Prelude.{ℕ, List};

    ghost label_bytes: { Self → List ℕ };

    fn label_text(&self) -> &str
        ensures { result.now ≡ label_bytes self.now };
}

impl Labelled for UnitPlan {
    ghost label_bytes = { λ u. u.label.bytes };

    fn label_text(&self) -> &str {
        self.label.as_str()
    }
}

impl Labelled for GroupPlan {
    ghost label_bytes = { λ g. g.label.bytes };

    fn label_text(&self) -> &str {
        self.label.as_str()
    }
}

impl Labelled for Signal {
    ghost label_bytes = { λ s. s.label.bytes };

    fn label_text(&self) -> &str {
        self.label().as_str()
    }
}

impl Labelled for PlannedSignal {
    ghost label_bytes = { λ x. x.signal.label.bytes };

    fn label_text(&self) -> &str {
        self.signal.label().as_str()
    }
}

impl Labelled for TextPlan {
    ghost label_bytes = { λ t. t.label.bytes };

    fn label_text(&self) -> &str {
        self.label.as_str()
    }
}

fn is_taken<T: Labelled>(items: &[T], label: &str) -> bool
    ensures { result ≡ list_any (λ x. bytes_eq (T.label_bytes x) label.now) items.now }
{
    items.iter().any(|item| item.label_text() == label)
}

/// Refuses a label that one of the items has.
#[tactic(auto, using(crate::proofs::Labelled::is_taken_view), unfolding(crate::specs::LabelsSeen::repeated_faults))]
pub fn untaken<T: Labelled>(
    items: &[T],
    label: &str,
    kind: TextKind,
    table: Table,
) -> Result<(), PlanError>
    requires { takes kind label.now ≡ true }
    ensures { Gives result (repeated_faults table kind (map T.label_bytes items.now) label.now) (λ _. Unit {0}) }
{
    if is_taken(items, label) {
        Err(refused(Cause::Repeated, table, Key::Label))
    } else {
        Ok(())
    }
}

/// Refuses a label that one of the others or of the items has.
#[tactic(auto, using(crate::proofs::Labelled::is_taken_view, crate::proofs::Labelled::is_among_both), unfolding(crate::specs::LabelsSeen::repeated_faults))]
pub fn untaken_beside<U: Labelled, T: Labelled>(
    others: &[U],
    items: &[T],
    label: &str,
    kind: TextKind,
    table: Table,
) -> Result<(), PlanError>
    requires { takes kind label.now ≡ true }
    ensures { Gives result (repeated_faults table kind (map U.label_bytes others.now
        ++ map T.label_bytes items.now) label.now) (λ _. Unit {0}) }
{
    if is_taken(others, label) || is_taken(items, label) {
        Err(refused(Cause::Repeated, table, Key::Label))
    } else {
        Ok(())
    }
}

fn first_place<T: Labelled>(items: &[T], label: &str) -> Option<usize>
    ensures { result ≡ position (λ x. bytes_eq (T.label_bytes x) label.now) items.now }
{
    items.iter().position(|item| item.label_text() == label)
}

/// The place of the first item with a label.
#[tactic(auto, using(crate::proofs::Labelled::place_of_view))]
pub fn place_of<T: Labelled>(items: &[T], label: &str) -> Option<usize>
    ensures { result ≡ place_of (map T.label_bytes items.now) label.now }
{
    first_place(items, label)
}
