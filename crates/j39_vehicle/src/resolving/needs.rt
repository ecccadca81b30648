//! What needs name.
ghost use Rattle.j39_vehicle.specs.Resolved as spec;

use super::each::Resolve;
use super::found::{group_place, signal_place, unit_named};
use super::own::{given, needed};
use crate::file::NeedTable;
use crate::reading::{Key, Table, VehicleError};
use crate::vehicle::{BusPlan, GroupAt, VehicleNeed};
use std::alloc::Global;

/// What the tables of needs stand for.
#[derive(Clone, Copy)]
pub struct NeedResolver<'a> {
    pub buses: &'a [BusPlan],
}

impl Resolve<NeedTable, VehicleNeed> for NeedResolver<'_> {
    ghost faults = { λ r. spec.need_found r.buses.now };

    ghost Grows = { λ _. spec.NeverFoundGrows };

    ghost StandsFor = { λ r. spec.StandsForNeed r.buses.now };

    #[tactic(auto, using(j39_toml::proofs::FirstFaults::faults_after), unfolding(crate::specs::Resolved::need_found, crate::specs::LabelsSeen::label_faults))]
    fn resolve(
        &self,
        _alloc: Global,
        index: usize,
        table: &NeedTable,
    ) -> Result<VehicleNeed, VehicleError> {
        let place = Table::Need(index);
        let unit = needed(
            unit_named(self.buses, table.unit.text.as_str()),
            place,
            Key::Unit,
        )?;
        let group = group_place(self.buses, unit.bus, table.group.as_str());
        let group = needed(group, place, Key::Group)?;
        let whole = GroupAt {
            bus: unit.bus,
            group,
        };
        let signal = table
            .signal
            .as_ref()
            .and_then(|label| signal_place(self.buses, whole, label.as_str()));
        let signal = given(&table.signal, signal, place, Key::Signal)?;
        let from = needed(
            unit_named(self.buses, table.from.text.as_str()),
            place,
            Key::From,
        )?;
        Ok(VehicleNeed {
            unit,
            group,
            signal,
            from,
            within: table.within,
        })
    }
}
