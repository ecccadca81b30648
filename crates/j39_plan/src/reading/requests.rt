//! The requests of a plan.
ghost use Rattle.std.specs.Prelude.{◌≡◌, [], ◌∷◌, map};
ghost use Rattle.toml.specs.View.{table_view};
ghost use Rattle.j39_toml.specs.Outcome.{Gives};
ghost use Rattle.j39_plan.specs.RequestTables as spec;

use super::flows::{milliseconds, place, to};
use super::keys::REQUEST_KEYS;
use super::text_kind::TextKind;
use super::{Key, PlanError, PlanFault, Table};
use j39_network::{GroupPlan, RequestPlan, UnitPlan};
use j39_toml::{ReadElement, given_number, only, required_text, table_of};
use std::alloc::Global;
use toml::Value;

/// The reader of requests of units for groups.
#[derive(Clone, Copy)]
pub struct RequestReader<'a> {
    pub groups: &'a [GroupPlan],
    pub units: &'a [UnitPlan],
}

#[tactic(auto, using(j39_toml::proofs::FirstFaults::faults_after), unfolding(crate::specs::RequestTables::request_table_faults))]
fn request(
    groups: &[GroupPlan],
    units: &[UnitPlan],
    index: usize,
    members: &toml::Table,
) -> Result<RequestPlan, PlanError>
    ensures { let group_labels = map (λ g. g.label.bytes) groups.now in
        let unit_labels = map (λ u. u.label.bytes) units.now in
        Gives result (spec.request_table_faults group_labels unit_labels index (table_view members.now))
        (spec.DescribesRequest group_labels unit_labels (table_view members.now)) }
{
    let table = Table::Request(index);
    only(members, table, &REQUEST_KEYS)?;
    let group_text = required_text(members, table, Key::Group, TextKind::Any)?;
    let from_text = required_text(members, table, Key::From, TextKind::Any)?;
    let to_text = required_text(members, table, Key::To, TextKind::Any)?;
    let period = given_number(members, table, Key::Period, 1, 65_535, false)?;
    let group = place(groups, group_text, table, Key::Group)?;
    let sender = place(units, from_text, table, Key::From)?;
    let to = to(units, to_text, table)?;
    Ok(RequestPlan {
        group,
        sender,
        to,
        period: milliseconds(period),
    })
}

impl ReadElement<RequestPlan, PlanFault> for RequestReader<'_> {
    ghost use Rattle.std.specs.Prelude.{ℕ, List};
    ghost use Rattle.j39_toml.specs.InOrder.{NeverGrows};
    ghost use Rattle.j39_plan.specs.PlanFaults.{no_label};
    ghost use Rattle.j39_plan.specs.RequestTables.{request_faults, IsRequestOf};

    ghost Label = { List ℕ };

    ghost label = { λ _. [] };

    ghost data_label = { no_label };

    ghost faults = { λ r i seen. request_faults (map (λ g. g.label.bytes) r.groups.now)
        (map (λ u. u.label.bytes) r.units.now) i };

    ghost Grows = { λ _. NeverGrows };

    ghost Describes = { λ r. IsRequestOf (map (λ g. g.label.bytes) r.groups.now)
        (map (λ u. u.label.bytes) r.units.now) };

    #[tactic(auto, using(j39_toml::proofs::FirstFaults::faults_after), unfolding(crate::specs::RequestTables::request_faults))]
    fn read(
        &self,
        _alloc: Global,
        index: usize,
        _seen: &[RequestPlan],
        value: &Value,
    ) -> Result<RequestPlan, PlanError> {
        request(
            self.groups,
            self.units,
            index,
            table_of::<Table, Key>(value, Table::Request(index))?,
        )
    }
}
