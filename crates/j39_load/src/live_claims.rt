//! The claims that come on a live bus at any time.
ghost use Rattle.std.specs.Prelude.{◌≡◌, ◌≤◌, ◌+◌, length};
ghost use Rattle.j39_id.specs.Limits.{unit_limit};
ghost use Rattle.j39_load.specs.BusTimes.{timing_of, with_claims};
ghost use Rattle.j39_load.specs.LiveClaims.{claiming, claims_alone, claims_stated, unplanned_end};

use crate::frames::IDENT_END;
use j39_id::Ident;
use j39_id::addresses::{GLOBAL_ADDRESS, NULL_ADDRESS};
use j39_id::services::{ADDRESS_CLAIMED, CLAIM_PRIORITY};
use j39_network::{Plan, Timing, UnitPlan};

// How many of the units claim.
fn claiming(units: &[UnitPlan]) -> u16
    requires { length units.now ≤ unit_limit }
    ensures count { result ≡ claiming units.now }
    ensures few { result ≤ unit_limit }
{
    let mut count = 0;
    for unit in units {
        if unit.claims {
            count += 1;
        }
    }
    count
}

// The claims of the plan's units and of strangers, and a request for them.
fn claims_stated(plan: &Plan) -> u16
    ensures claims { result ≡ claims_stated plan.now }
    ensures few { result ≤ 249 }
{
    claiming(plan.units.as_slice()) + u16::from(plan.strangers) + 1
}

// No frame is foreseen that isn't planned but claims and requests for them.
fn claims_alone(plan: &Plan) -> bool
    ensures { result ≡ claims_alone plan.now }
{
    match plan.timing {
        Some(timing) => plan.live && timing.unplanned == 0,
        None => false,
    }
}

/// What isn't planned has identifiers below this number: where only claims and requests for them come, the greatest is
/// that of a unit that could claim no address.
pub(crate) fn unplanned_end(plan: &Plan) -> u64
    ensures { result ≡ unplanned_end plan.now }
{
    if claims_alone(plan) {
        let number = ADDRESS_CLAIMED.number();
        Ident::number_of(CLAIM_PRIORITY, number, GLOBAL_ADDRESS, NULL_ADDRESS) + 1
    } else {
        IDENT_END
    }
}

// With these among the frames that aren't planned, where the plan is live.
fn with_claims(plan: &Plan, timing: Timing) -> Timing
    ensures { result ≡ with_claims plan.now timing }
{
    if !plan.live {
        return timing;
    }
    Timing {
        bitrate: timing.bitrate,
        unplanned: timing.unplanned.max(claims_stated(plan)),
        unplanned_priority: timing.unplanned_priority,
        transport_priority: timing.transport_priority,
        broadcast_gap: timing.broadcast_gap,
        broadcast_gap_most: timing.broadcast_gap_most,
        drift: timing.drift,
        errors: timing.errors,
    }
}

/// What is known of the bus of a plan, as its times count it: where the plan is live, with the claims of its units and
/// of strangers, and a request for claims, among the frames that aren't planned.
#[tactic(auto, unfolding(crate::specs::BusTimes::timing_of))]
pub fn timing_of(plan: &Plan) -> Option<Timing>
    ensures { result ≡ timing_of plan.now }
{
    match plan.timing {
        Some(timing) => Some(with_claims(plan, timing)),
        None => None,
    }
}
