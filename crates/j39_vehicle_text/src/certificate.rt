//! What a check of a vehicle is good for.
ghost use Rattle.j39_vehicle_text.specs.CertifiedVehicle.{HasNoFindings, IsCertifiedVehicle};

use j39_findings::clean_where_none;
use j39_plan_text::clean_plans_are_certified;
use j39_vehicle::Vehicle;
use j39_vehicle_findings::vehicle_findings_are_exact;
use j39_vehicle_laws::{nothing_is_altered, passed_messages_arrive, sound_vehicles_keep_ages};
use j39_vehicle_times::time_findings_are_exact;

/// Of a vehicle in which nothing is wrong the plan of each bus is certified, and nothing is wrong with what goes over
/// its gateways, nor with the times of this. So in each vehicle of the type what needs bring is unaltered, and what
/// isn't lost arrives; and where buses keep to their plans, gateways are prompt and flows keep their pauses, of one
/// flow of each need that asks for an age what has come is as young as it asks, and has the origin's value where
/// gateways pass values on. It does nothing when it runs; it rests on the certificate of plans, on the laws of findings
/// and on those of what gateways send on.
pub fn certify_vehicle(vehicle: &Vehicle)
    requires { HasNoFindings vehicle.now }
    ensures { IsCertifiedVehicle vehicle.now }
{
    let _buses = &vehicle.buses;
    clean_where_none();
    clean_plans_are_certified();
    vehicle_findings_are_exact();
    time_findings_are_exact();
    nothing_is_altered();
    passed_messages_arrive();
    sound_vehicles_keep_ages();
}
