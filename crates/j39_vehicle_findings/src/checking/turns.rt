//! Which forwards come after themselves.
ghost use Rattle.std.specs.Prelude.{◌≡◌, false};
ghost use Rattle.std.specs.List.{slice_index_or};
ghost use Rattle.j39_search.specs.Adding.{Adds};
ghost use Rattle.j39_search.specs.ListPlaces.{found_if, in_each};
ghost use Rattle.j39_vehicle_findings.specs.FoundPaths.{loop_findings};

use crate::finding::VehicleFinding;
use crate::reaching::flag_at;
use j39_search::{FindResult, Rule, find_each, push_if};
use j39_vehicle::{Forward, Vehicle};

#[derive(Clone, Copy)]
struct ForwardLoop<'a> {
    loops: &'a [bool],
}

impl Rule<Forward, VehicleFinding> for ForwardLoop<'_> {
    ghost use Rattle.j39_vehicle_findings.specs.declared.finding.VehicleFinding.TheVariants.{ForwardLoop as Loops};

    ghost gives = { λ rule n _. found_if (slice_index_or rule.loops.now n false) (Loops n) };

    fn find(
        &self,
        findings: &mut Vec<VehicleFinding>,
        place: usize,
        _forward: &Forward,
    ) -> FindResult {
        push_if(
            findings,
            flag_at(self.loops, place),
            VehicleFinding::ForwardLoop(place),
        )
    }
}

/// Adds the forwards that come after themselves, as it is reported of each.
#[tactic(auto, unfolding(crate::specs::FoundPaths::loop_findings))]
pub fn find_loops(
    findings: &mut Vec<VehicleFinding>,
    loops: &[bool],
    vehicle: &Vehicle,
) -> FindResult
    ensures { Adds result findings.old.items findings.new.items (loop_findings loops.now vehicle.now) }
{
    find_each(findings, &ForwardLoop { loops }, &vehicle.forwards)
}
