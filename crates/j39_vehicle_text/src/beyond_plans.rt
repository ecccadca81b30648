//! What is wrong with a vehicle beyond the plans of its buses.
ghost use Rattle.std.specs.Prelude.{◌≡◌, ◌≤◌, ◌++◌, ◌^◌, [], IfOk, OnOk, false};
ghost use Rattle.j39_vehicle_text.specs.VehicleText.{AreAllFound, IsFoundBeyond, beyond_lines, count_beyond};

use crate::finding_lines::{write_findings, write_time_findings};
use j39_text::{TextBuffer, WriteResult};
use j39_vehicle::Vehicle;
use j39_vehicle_findings::{Routes, VehicleFindings, find_in_paths, find_in_queues};
use j39_vehicle_times::{Delays, TimeFindings, find_in_times};
use std::alloc::{AllocError, Global};

/// What is wrong with the forwards and the needs of a vehicle, and, where the plans of its buses have no findings but
/// of times, with the times over gateways and with the queues of these.
#[derive(Drop)]
pub struct BeyondPlans {
    pub paths: VehicleFindings,
    pub times: TimeFindings,
    pub queues: VehicleFindings,
}

impl BeyondPlans {
    /// All of it, where the buses have these delays.
    pub fn with_times(
        alloc: Global,
        routes: &Routes<'_>,
        delays: &Delays,
    ) -> Result<Self, AllocError>
        ensures { IfOk result (AreAllFound routes.now.vehicle.now delays.now) }
    {
        Ok(BeyondPlans {
            paths: find_in_paths(alloc, routes.vehicle)?,
            times: find_in_times(alloc, routes, delays)?,
            queues: find_in_queues(alloc, routes.vehicle)?,
        })
    }

    /// What is wrong with forwards and needs alone.
    pub fn without_times(alloc: Global, vehicle: &Vehicle) -> Result<Self, AllocError>
        ensures { IfOk result (λ found. IsFoundBeyond vehicle.now false [] found) }
    {
        Ok(BeyondPlans {
            paths: find_in_paths(alloc, vehicle)?,
            times: Vec::new(alloc),
            queues: Vec::new(alloc),
        })
    }

    /// How much of it there is.
    pub fn count(&self) -> u128
        ensures count { result ≡ count_beyond self.now }
        ensures few { result ≤ 2 ^ 66 }
    {
        self.paths.len() as u128 + self.times.len() as u128 + self.queues.len() as u128
    }

    /// Writes a line for each finding, by their numbers and then by their places.
    #[tactic(auto, unfolding(crate::specs::VehicleText::beyond_lines))]
    pub fn write(&self, text: &mut TextBuffer, vehicle: &Vehicle) -> WriteResult
        ensures { OnOk result (text.new ≡ text.old ++ beyond_lines vehicle.now self.now) }
    {
        write_findings(text, vehicle, &self.paths)?;
        write_time_findings(text, &self.times)?;
        write_findings(text, vehicle, &self.queues)
    }
}
