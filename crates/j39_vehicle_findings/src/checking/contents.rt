//! What is wrong with what goes into what.
ghost use Rattle.std.specs.Prelude.{◌≡◌};
ghost use Rattle.j39_search.specs.Adding.{Adds};
ghost use Rattle.j39_vehicle_findings.specs.FoundPaths.{content_findings};

use crate::checking::forward_faults::{ForwardFault, find_faulty};
use crate::checking::odds::TwoForwards;
use crate::checking::signals::Differences;
use crate::finding::VehicleFinding;
use j39_search::{FindResult, find_each, find_pairs};
use j39_vehicle::Vehicle;

/// Adds the forwards that copy into another layout, the signals that don't say what goes into them, and the forwards
/// that may say different things of one flow.
pub fn find_in_contents(findings: &mut Vec<VehicleFinding>, vehicle: &Vehicle) -> FindResult
    ensures { Adds result findings.old.items findings.new.items (content_findings vehicle.now) }
{
    find_faulty(findings, vehicle, ForwardFault::LayoutDiffers)?;
    find_each(findings, &Differences { vehicle }, &vehicle.forwards)?;
    find_pairs(findings, &TwoForwards { vehicle }, &vehicle.forwards)
}
