//! Identifiers of the frames of a flow, and of requests.
ghost use Rattle.std.specs.Prelude.{◌≡◌, ◌<◌, ◌*◌, ◌^◌, ℕ, length, max};
ghost use Rattle.j39_id.specs.Limits.{unit_limit};
ghost use Rattle.j39_network.specs.declared.plan.to.To.TheVariants.{One};
ghost use Rattle.j39_load.specs.Loads.{any_unit, broadcast_ident, destination_at, group_ident, packet_ident};
ghost use Rattle.j39_load.specs.Loads.{session_ident, twin_ident};
ghost use Rattle.j39_load.specs.RequestLoads.{request_ident};
ghost use Rattle.j39_load.specs.inside.PlannedBuses.{addresses_at, units_in};

use crate::frames::extreme::Extreme;
use crate::frames::planned_bus::PlannedBus;
use j39_id::addresses::GLOBAL_ADDRESS;
use j39_id::services::{CLAIM_PRIORITY, CONNECTION_MANAGEMENT, DATA_TRANSFER, REQUEST};
use j39_id::{IDENTIFIER_END, Ident, Pgn};
use j39_network::{FlowPlan, GroupPlan, Queue, RequestPlan, To};

/// No identifier has this number, nor a greater one.
pub(crate) const IDENT_END: u64 = IDENTIFIER_END as u64;

/// The least identifier of a priority.
pub(crate) fn first_of_priority(priority: u8) -> u64
    ensures { result ≡ priority * 2 ^ 26 }
{
    Ident::number_of(priority, 0, 0, 0)
}

fn destination(bus: &PlannedBus<'_>, extreme: Extreme, to: To) -> u8
    requires { (v : ℕ) → to ≡ One v → v < length (units_in bus.now) }
    ensures { result ≡ destination_at (addresses_at extreme bus.now) to }
{
    match to {
        To::All => GLOBAL_ADDRESS,
        To::One(unit) => bus.address(extreme, unit),
    }
}

/// The number of the identifier of a flow's frames of its group, where its units hold their addresses at this end.
pub(crate) fn group_ident(
    bus: &PlannedBus<'_>,
    extreme: Extreme,
    group: &GroupPlan,
    flow: &FlowPlan,
) -> u64
    requires sender { flow.now.sender < length (units_in bus.now) }
    requires receiver { (v : ℕ) → flow.now.to ≡ One v → v < length (units_in bus.now) }
    ensures { result ≡ group_ident (addresses_at extreme bus.now) group.now flow.now }
{
    Ident::number_of(
        group.priority,
        group.pgn,
        destination(bus, extreme, flow.to),
        bus.address(extreme, flow.sender),
    )
}

// Where a message goes to, each unit having its place as its address.
fn destination_place(to: To) -> u8
    requires { (v : ℕ) → to ≡ One v → v < unit_limit }
    ensures { result ≡ destination_at (λ u. u) to }
{
    match to {
        To::All => GLOBAL_ADDRESS,
        To::One(unit) => unit as u8,
    }
}

/// What distinguishes the frames of a flow from all but its twins, where its group is distinguished by its data: the
/// number that their identifier would be if each unit's address was its place.
pub(crate) fn twin_ident(group: &GroupPlan, flow: &FlowPlan) -> Option<u64>
    requires sender { flow.now.sender < unit_limit }
    requires receiver { (v : ℕ) → flow.now.to ≡ One v → v < unit_limit }
    ensures { result ≡ twin_ident group.now flow.now }
{
    match group.when {
        Some(_selector) => Some(Ident::number_of(
            group.priority,
            group.pgn,
            destination_place(flow.to),
            flow.sender as u8,
        )),
        None => None,
    }
}

/// The identifier of the data packets of a flow's long messages.
pub(crate) fn packet_ident(bus: &PlannedBus<'_>, extreme: Extreme, flow: &FlowPlan) -> u64
    requires sender { flow.now.sender < length (units_in bus.now) }
    requires receiver { (v : ℕ) → flow.now.to ≡ One v → v < length (units_in bus.now) }
    ensures { result ≡ packet_ident bus.now.timing (addresses_at extreme bus.now) flow.now }
{
    Ident::number_of(
        bus.timing.transport_priority,
        DATA_TRANSFER.number(),
        destination(bus, extreme, flow.to),
        bus.address(extreme, flow.sender),
    )
}

/// The greatest one of its long messages to the unit at a place, with what is answered.
pub(crate) fn session_ident(
    bus: &PlannedBus<'_>,
    extreme: Extreme,
    flow: &FlowPlan,
    unit: usize,
) -> u64
    requires sender { flow.now.sender < length (units_in bus.now) }
    requires to { unit < length (units_in bus.now) }
    ensures { result ≡ session_ident bus.now.timing (addresses_at extreme bus.now) flow.now unit }
{
    let from = bus.address(extreme, flow.sender);
    let to = bus.address(extreme, unit);
    let pgn = CONNECTION_MANAGEMENT.number();
    let asked = Ident::number_of(bus.timing.transport_priority, pgn, to, from);
    let answered = Ident::number_of(bus.timing.transport_priority, pgn, from, to);
    asked.max(answered)
}

/// The unit at a place, where its controller keeps no order.
pub(crate) fn any_unit(bus: &PlannedBus<'_>, unit: usize) -> Option<usize>
    requires { unit < length (units_in bus.now) }
    ensures { result ≡ any_unit (units_in bus.now) unit }
{
    match bus.plan.units[unit].queue {
        Queue::Any => Some(unit),
        Queue::Priority => None,
    }
}

/// That of frames of a group of the transport protocol, from a unit to all.
pub(crate) fn broadcast_ident(bus: &PlannedBus<'_>, pgn: Pgn, extreme: Extreme, unit: usize) -> u64
    requires { unit < length (units_in bus.now) }
    ensures { result ≡ broadcast_ident bus.now.timing pgn (addresses_at extreme bus.now) unit }
{
    Ident::number_of(
        bus.timing.transport_priority,
        pgn.number(),
        GLOBAL_ADDRESS,
        bus.address(extreme, unit),
    )
}

/// The identifier of the frames of a request.
pub(crate) fn request_ident(bus: &PlannedBus<'_>, extreme: Extreme, request: &RequestPlan) -> u64
    requires sender { request.now.sender < length (units_in bus.now) }
    requires receiver { (v : ℕ) → request.now.to ≡ One v → v < length (units_in bus.now) }
    ensures { result ≡ request_ident (addresses_at extreme bus.now) request.now }
{
    Ident::number_of(
        CLAIM_PRIORITY,
        REQUEST.number(),
        destination(bus, extreme, request.to),
        bus.address(extreme, request.sender),
    )
}
