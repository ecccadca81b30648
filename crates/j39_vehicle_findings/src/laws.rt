//! Laws of the findings of a vehicle.
ghost use Rattle.std.specs.Prelude.{List, Bool};
ghost use Rattle.j39_vehicle.specs.declared.vehicle.Vehicle.{Vehicle};
ghost use Rattle.j39_vehicle_findings.specs.FoundPaths.{vehicle_findings};
ghost use Rattle.j39_vehicle_findings.specs.Loops.{DecidesLoops};
ghost use Rattle.j39_vehicle_findings.specs.VehicleFindings.{AreFindings};

/// The list of findings has exactly what holds of the vehicle, in order.
pub fn vehicle_findings_are_exact()
    ensures { (v : Vehicle) (loops : List Bool) → DecidesLoops v loops → AreFindings v (vehicle_findings loops v) }
{}
