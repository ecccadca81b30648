//! Laws of the findings of times.
ghost use Rattle.j39_vehicle.specs.declared.vehicle.Vehicle.{Vehicle};
ghost use Rattle.j39_vehicle_times.specs.FoundTimes.{time_findings};
ghost use Rattle.j39_vehicle_times.specs.TimeFindings.{AreTimeFindings};
ghost use Rattle.j39_vehicle_times.specs.declared.bus_delays.Delays.{Delays};

/// The list of findings has exactly what holds of the vehicle, in order.
pub fn time_findings_are_exact()
    ensures { (v : Vehicle) (delays : Delays) → AreTimeFindings v delays (time_findings v delays) }
{}
