//! The needs of a plan.
ghost use Rattle.std.specs.Prelude.{◌≡◌, [], ◌∷◌, map, option_map, option_and_then, Some};
ghost use Rattle.std.specs.List.{slice_get};
ghost use Rattle.toml.specs.View.{table_view};
ghost use Rattle.j39_toml.specs.Outcome.{Gives};
ghost use Rattle.j39_plan.specs.FlowTables.{place_of, place_faults};
ghost use Rattle.j39_plan.specs.NeedTables as spec;

use super::flows::place;
use super::keys::NEED_KEYS;
use super::labels::Labelled;
use super::text_kind::TextKind;
use super::{Key, PlanError, PlanFault, Table};
use j39_network::{GroupPlan, NeedPlan, UnitPlan};
use j39_signal::Signal;
use j39_toml::{ReadElement, given_number, given_text, only, required_text, table_of};
use std::alloc::Global;
use toml::Value;

// The place of the item that a text names, where there is a text.
#[tactic(auto, unfolding(crate::specs::FlowTables::place_faults))]
fn optional_place<T: Labelled>(
    items: &[T],
    label: Option<&str>,
    table: Table,
    key: Key,
) -> Result<Option<usize>, PlanError>
    ensures { let labels = map T.label_bytes items.now in
        let named = option_map (λ t. t.now) label.entry in
        Gives result (place_faults table key labels named) (λ p. p ≡ option_and_then (place_of labels) named) }
{
    match label {
        None => Ok(None),
        Some(label) => Ok(Some(place(items, label, table, key)?)),
    }
}

// The signals of the group at a place.
fn signals_of(groups: &[GroupPlan], group: usize) -> &[Signal]
    ensures { map (λ s. s.label.bytes) result.now ≡ spec.signal_texts (slice_get groups.now group) }
{
    match groups.get(group) {
        Some(group) => group.signals.as_slice(),
        None => &[],
    }
}

// The place of the signal that a text names, of the group at a place.
#[tactic(auto, using(crate::proofs::NeedSignals::signals_found))]
fn signal_place(
    groups: &[GroupPlan],
    group: usize,
    label: Option<&str>,
    table: Table,
) -> Result<Option<usize>, PlanError>
    ensures { let signals = map (λ g. map (λ s. s.label.bytes) g.signals.items) groups.now in
        let named = option_map (λ t. t.now) label.entry in
        Gives result (place_faults table Key.Signal (spec.signals_at signals (Some group)) named)
        (λ p. p ≡ option_and_then (place_of (spec.signals_at signals (Some group))) named) }
{
    optional_place(signals_of(groups, group), label, table, Key::Signal)
}

/// The reader of needs of units for groups.
#[derive(Clone, Copy)]
pub struct NeedReader<'a> {
    pub groups: &'a [GroupPlan],
    pub units: &'a [UnitPlan],
}

#[tactic(auto, using(j39_toml::proofs::FirstFaults::faults_after), unfolding(crate::specs::NeedTables::need_table_faults))]
fn need(
    groups: &[GroupPlan],
    units: &[UnitPlan],
    index: usize,
    members: &toml::Table,
) -> Result<NeedPlan, PlanError>
    ensures { let group_labels = map (λ g. g.label.bytes) groups.now in
        let signals = map (λ g. map (λ s. s.label.bytes) g.signals.items) groups.now in
        let unit_labels = map (λ u. u.label.bytes) units.now in
        Gives result (spec.need_table_faults group_labels signals unit_labels index (table_view members.now))
        (spec.DescribesNeed group_labels signals unit_labels (table_view members.now)) }
{
    let table = Table::Need(index);
    only(members, table, &NEED_KEYS)?;
    let unit_text = required_text(members, table, Key::Unit, TextKind::Any)?;
    let group_text = required_text(members, table, Key::Group, TextKind::Any)?;
    let signal_text = given_text(members, table, Key::Signal, TextKind::Any)?;
    let from_text = given_text(members, table, Key::From, TextKind::Any)?;
    let within = given_number(members, table, Key::Within, 1, 65_535, false)?;
    let unit = place(units, unit_text, table, Key::Unit)?;
    let group = place(groups, group_text, table, Key::Group)?;
    let signal = signal_place(groups, group, signal_text, table)?;
    let from = optional_place(units, from_text, table, Key::From)?;
    Ok(NeedPlan {
        unit,
        group,
        signal,
        from,
        within: match within {
            Some(number) => Some(number as u16),
            None => None,
        },
    })
}

impl ReadElement<NeedPlan, PlanFault> for NeedReader<'_> {
    ghost use Rattle.std.specs.Prelude.{ℕ, List};
    ghost use Rattle.j39_toml.specs.InOrder.{NeverGrows};
    ghost use Rattle.j39_plan.specs.PlanFaults.{no_label};
    ghost use Rattle.j39_plan.specs.NeedTables.{need_faults, IsNeedOf};

    ghost Label = { List ℕ };

    ghost label = { λ _. [] };

    ghost data_label = { no_label };

    ghost faults = { λ r i seen. need_faults (map (λ g. g.label.bytes) r.groups.now)
        (map (λ g. map (λ s. s.label.bytes) g.signals.items) r.groups.now) (map (λ u. u.label.bytes) r.units.now) i };

    ghost Grows = { λ _. NeverGrows };

    ghost Describes = { λ r. IsNeedOf (map (λ g. g.label.bytes) r.groups.now)
        (map (λ g. map (λ s. s.label.bytes) g.signals.items) r.groups.now) (map (λ u. u.label.bytes) r.units.now) };

    #[tactic(auto, using(j39_toml::proofs::FirstFaults::faults_after), unfolding(crate::specs::NeedTables::need_faults))]
    fn read(
        &self,
        _alloc: Global,
        index: usize,
        _seen: &[NeedPlan],
        value: &Value,
    ) -> Result<NeedPlan, PlanError> {
        need(
            self.groups,
            self.units,
            index,
            table_of::<Table, Key>(value, Table::Need(index))?,
        )
    }
}
