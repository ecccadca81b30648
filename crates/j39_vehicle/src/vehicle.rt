//! A vehicle: its buses, each with its plan, its gateways, what these send on from bus to bus, and who needs what from
//! whom.
ghost use Rattle.std.specs.Prelude.{◌≤◌, All, length};
ghost use Rattle.j39_network.specs.PlanLimits.{need_limit};
ghost use Rattle.j39_vehicle.specs.VehicleLimits.{bus_limit, forward_limit, gateway_limit};
ghost use Rattle.j39_vehicle.specs.VehiclePlaces.{HasForward, HasNeed, HasUnit};

mod bus_plan;
mod forward;
mod gateway;
mod places;
mod vehicle_need;

pub use bus_plan::BusPlan;
pub use forward::{Forward, ForwardedSignal, Mode};
pub use gateway::Gateway;
pub use places::{GroupAt, UnitAt};
pub use vehicle_need::VehicleNeed;

/// A vehicle of at most 16 buses, 64 gateways of 128 units each, 512 forwards and 4096 needs. Buses and gateways are
/// named by their places from 0; units, groups and signals by their places in the plan of their bus.
#[derive(Drop)]
pub struct Vehicle {
    pub buses: Vec<BusPlan>,
    pub gateways: Vec<Gateway>,
    pub forwards: Vec<Forward>,
    pub needs: Vec<VehicleNeed>,
    pub ghost bus_count: { length buses.items ≤ bus_limit },
    pub ghost gateway_count: { length gateways.items ≤ gateway_limit },
    pub ghost forward_count: { length forwards.items ≤ forward_limit },
    pub ghost need_count: { length needs.items ≤ need_limit },
    pub ghost gateway_units: { All (λ g. All (HasUnit buses.items) g.units.items) gateways.items },
    pub ghost forward_places: { All (HasForward buses.items gateways.items) forwards.items },
    pub ghost need_places: { All (HasNeed buses.items) needs.items },
}
