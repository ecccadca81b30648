//! What the requests of a plan ask of its bus.
ghost use Rattle.std.specs.Prelude.{◌≡◌, ◌≢◌, [], ◌<◌, ℕ, All, length, IfOk, OnErr};
ghost use Rattle.j39_network.specs.declared.plan.to.To.TheVariants.{One};
ghost use Rattle.j39_load.specs.RequestLoads.{load_of_request, request_loads_of};
ghost use Rattle.j39_load.specs.SoundLoads.{IsSoundIfAsked};
ghost use Rattle.j39_load.specs.inside.PlannedBuses.{on_bus, stays_in, units_in};

use crate::frames::{
    Extreme, FlowFrames, PlannedBus, any_unit, load_of, request_ident, request_stream,
};
use crate::loads::request_load::RequestLoad;
use j39_network::RequestPlan;
use std::alloc::{AllocError, Global};

// What a request asks of the bus, where it is known how often it is sent.
fn load_of_request(bus: &PlannedBus<'_>, request: &RequestPlan) -> Option<RequestLoad>
    requires sender { request.now.sender < length (units_in bus.now) }
    requires receiver { (v : ℕ) → request.now.to ≡ One v → v < length (units_in bus.now) }
    ensures load { result ≡ on_bus load_of_request bus.now request.now }
    ensures sound { IsSoundIfAsked result }
{
    let Some(period) = request.period else {
        return None;
    };
    let stream = request_stream(bus.timing, period);
    let greatest_ident = request_ident(bus, Extreme::Greatest, request);
    Some(RequestLoad {
        frames: FlowFrames {
            stream,
            least_ident: request_ident(bus, Extreme::Least, request),
            greatest_ident,
            any_sender: any_unit(bus, request.sender),
            any_receiver: None,
            last_ident: greatest_ident,
            twin_ident: None,
            want: None,
        },
        bits_per_second: load_of(bus.timing, stream, period),
    })
}

/// What each request of a plan asks of the bus, in order. No memory is asked for where there are none.
pub(crate) fn request_loads_of(
    alloc: Global,
    bus: &PlannedBus<'_>,
) -> Result<Vec<Option<RequestLoad>>, AllocError>
    ensures loads { IfOk result (λ loads. loads.items
        ≡ request_loads_of bus.now.timing bus.now.plan.now (stays_in bus.now)) }
    ensures count { IfOk result (λ loads. length loads.items ≡ length bus.now.plan.now.requests.items) }
    ensures sound { IfOk result (λ loads. All IsSoundIfAsked loads.items) }
    ensures memory { OnErr result (bus.now.plan.now.requests.items ≢ []) }
{
    let mut loads = Vec::with_capacity(alloc, bus.plan.requests.len())?;
    for place in 0..bus.plan.requests.len() {
        let request = &bus.plan.requests[place];
        loads.push_reserved(load_of_request(bus, request));
    }
    Ok(loads)
}
