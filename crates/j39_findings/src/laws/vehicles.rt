//! The law of serial numbers.
ghost use Rattle.j39_network.specs.declared.plan.Plan.{Plan};
ghost use Rattle.j39_findings.specs.Findings.{Clean};
ghost use Rattle.j39_network.specs.Kinds.{AreDistinctUnits};
ghost use Rattle.j39_network.specs.VehiclePlans.{IsVehicleOf};
ghost use Rattle.j39_findings.specs.FoundInVehicles.{AreFoundAlike};

/// The same is found in the plan of each vehicle, whatever the serial numbers of its boxes are, where no two units of
/// the plan may be one: of a clean plan each vehicle's is clean.
pub fn serial_numbers_change_nothing()
    ensures alike { (plan vehicle : Plan) → IsVehicleOf plan vehicle → AreDistinctUnits plan
        → AreFoundAlike plan vehicle }
    ensures clean { (plan vehicle : Plan) → IsVehicleOf plan vehicle → Clean plan → Clean vehicle }
{}
