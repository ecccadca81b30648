//! The signals of forwards.
ghost use Rattle.j39_vehicle.specs.Resolved as spec;

use super::each::{Resolve, resolve_each};
use super::found::signal_place;
use super::own::needed;
use crate::file::SignalTable;
use crate::reading::{Key, Table, VehicleError};
use crate::vehicle::{BusPlan, ForwardedSignal, GroupAt};
use std::alloc::Global;

/// What the signals of the forward at a place stand for, between the groups that are heard and sent.
#[derive(Clone, Copy)]
pub struct SignalResolver<'a> {
    pub buses: &'a [BusPlan],
    pub forward: usize,
    pub heard: GroupAt,
    pub sent: GroupAt,
}

impl Resolve<SignalTable, ForwardedSignal> for SignalResolver<'_> {
    ghost faults = { λ r. spec.signal_found r.buses.now r.forward r.heard r.sent };

    ghost Grows = { λ _. spec.NeverFoundGrows };

    ghost StandsFor = { λ r. spec.StandsForSignal r.buses.now r.heard r.sent };

    #[tactic(auto, unfolding(crate::specs::Resolved::signal_found, crate::specs::LabelsSeen::label_faults))]
    fn resolve(
        &self,
        _alloc: Global,
        index: usize,
        table: &SignalTable,
    ) -> Result<ForwardedSignal, VehicleError> {
        let place = Table::Signal(self.forward, index);
        let read = signal_place(self.buses, self.heard, table.read.as_str());
        let read = needed(read, place, Key::Label)?;
        let written = signal_place(self.buses, self.sent, table.written.as_str());
        let written = needed(written, place, Key::As)?;
        Ok(ForwardedSignal {
            read,
            written,
            exact: table.exact,
        })
    }
}
