//! Everything that is wrong with the times of what the gateways of a vehicle send on.
ghost use Rattle.std.specs.Prelude.{◌≡◌, ◌≢◌, [], IfOk, OnErr};
ghost use Rattle.j39_search.specs.Adding.{Adds};
ghost use Rattle.j39_search.specs.ListPlaces.{each};
ghost use Rattle.j39_vehicle_times.specs.FoundTimes.{forward_time_findings, is_need_too_old, need_time_findings};
ghost use Rattle.j39_vehicle_times.specs.FoundTimes.{time_findings};
ghost use Rattle.j39_vehicle_times.specs.inside.DirectFaults.{direct_fault_at, has_direct_fault};

use crate::bus_delays::Delays;
use crate::ends::{is_too_late, is_too_often, is_too_rare};
use crate::finding::TimeFinding;
use crate::needs::is_need_too_old;
use j39_search::{TestRule, find_tested};
use j39_vehicle::{Forward, Vehicle, VehicleNeed};
use j39_vehicle_findings::Routes;
use std::alloc::{AllocError, Global};

/// What is wrong with the times of a vehicle, in order.
pub type TimeFindings = Vec<TimeFinding>;

/// What can be wrong with the times of a direct forward.
#[derive(Clone, Copy)]
pub enum DirectFault {
    TooOften,
    TooLate,
    TooRare,
}

#[derive(Clone, Copy)]
struct FaultyDirect<'a> {
    routes: Routes<'a>,
    delays: &'a Delays,
    fault: DirectFault,
}

impl TestRule<Forward, TimeFinding> for FaultyDirect<'_> {
    ghost use Rattle.j39_vehicle_times.specs.inside.DirectFaults.{direct_fault_at, has_direct_fault};

    ghost test = { λ rule. has_direct_fault rule.routes.vehicle.now rule.delays.now rule.fault };

    ghost make = { λ rule. direct_fault_at rule.fault };

    fn holds(&self, forward: &Forward) -> bool {
        match self.fault {
            DirectFault::TooOften => is_too_often(self.routes.vehicle, forward),
            DirectFault::TooLate => is_too_late(&self.routes, self.delays, forward),
            DirectFault::TooRare => is_too_rare(&self.routes, forward),
        }
    }

    fn finding(&self, place: usize) -> TimeFinding {
        match self.fault {
            DirectFault::TooOften => TimeFinding::TooOften(place),
            DirectFault::TooLate => TimeFinding::TooLate(place),
            DirectFault::TooRare => TimeFinding::TooRare(place),
        }
    }
}

#[derive(Clone, Copy)]
struct TooOld<'a> {
    routes: Routes<'a>,
    delays: &'a Delays,
}

impl TestRule<VehicleNeed, TimeFinding> for TooOld<'_> {
    ghost use Rattle.j39_vehicle_times.specs.declared.finding.TimeFinding.TheVariants.{NeedTooOld as IsTooOld};

    ghost test = { λ rule. is_need_too_old rule.routes.vehicle.now rule.delays.now };

    ghost make = { λ _ d. IsTooOld d };

    fn holds(&self, need: &VehicleNeed) -> bool {
        is_need_too_old(&self.routes, self.delays, need)
    }

    fn finding(&self, place: usize) -> TimeFinding {
        TimeFinding::NeedTooOld(place)
    }
}

// Adds the forwards with the times of which this is wrong.
fn find_faulty(
    findings: &mut TimeFindings,
    routes: &Routes<'_>,
    delays: &Delays,
    fault: DirectFault,
) -> Result<(), AllocError>
    ensures { let v = routes.now.vehicle.now in
        Adds result findings.old.items findings.new.items
        (each (has_direct_fault v delays.now fault) (direct_fault_at fault) 0 v.forwards.items) }
{
    let rule = FaultyDirect {
        routes: *routes,
        delays,
        fault,
    };
    find_tested(findings, &rule, &routes.vehicle.forwards)
}

// Adds what is wrong with the times of the forwards.
#[tactic(auto, unfolding(crate::specs::FoundTimes::forward_time_findings))]
fn find_in_forwards(
    findings: &mut TimeFindings,
    routes: &Routes<'_>,
    delays: &Delays,
) -> Result<(), AllocError>
    ensures { Adds result findings.old.items findings.new.items
        (forward_time_findings routes.now.vehicle.now delays.now) }
{
    find_faulty(findings, routes, delays, DirectFault::TooOften)?;
    find_faulty(findings, routes, delays, DirectFault::TooLate)?;
    find_faulty(findings, routes, delays, DirectFault::TooRare)
}

// Adds the needs for what isn't shown to be young enough.
#[tactic(auto, unfolding(crate::specs::FoundTimes::need_time_findings))]
fn find_in_needs(
    findings: &mut TimeFindings,
    routes: &Routes<'_>,
    delays: &Delays,
) -> Result<(), AllocError>
    ensures { Adds result findings.old.items findings.new.items (need_time_findings routes.now.vehicle.now delays.now) }
{
    find_tested(
        findings,
        &TooOld {
            routes: *routes,
            delays,
        },
        &routes.vehicle.needs,
    )
}

#[tactic(auto, unfolding(crate::specs::FoundTimes::time_findings))]
fn find_all(
    findings: &mut TimeFindings,
    routes: &Routes<'_>,
    delays: &Delays,
) -> Result<(), AllocError>
    ensures { Adds result findings.old.items findings.new.items (time_findings routes.now.vehicle.now delays.now) }
{
    find_in_forwards(findings, routes, delays)?;
    find_in_needs(findings, routes, delays)
}

/// What is wrong with the times of the forwards and of what is needed, where the buses have these delays: G10 to G13,
/// by their numbers and then by their places in rising order.
pub fn find_in_times(
    alloc: Global,
    routes: &Routes<'_>,
    delays: &Delays,
) -> Result<TimeFindings, AllocError>
    ensures list { IfOk result (λ findings. findings.items ≡ time_findings routes.now.vehicle.now delays.now) }
    ensures memory { OnErr result (time_findings routes.now.vehicle.now delays.now ≢ []) }
{
    let mut findings = Vec::new(alloc);
    find_all(&mut findings, routes, delays)?;
    Ok(findings)
}
