//! What a vehicle file says. It names units, groups and signals by their labels, which stand in the plans of its buses.
ghost use Rattle.std.specs.Prelude.{◌≤◌, length};
ghost use Rattle.j39_network.specs.PlanLimits.{need_limit};
ghost use Rattle.j39_vehicle.specs.VehicleLimits.{bus_limit, forward_limit, gateway_limit};

mod bus_table;
mod forward_table;
mod gateway_table;
mod name_on_bus;
mod need_table;
mod signal_table;

pub use bus_table::BusTable;
pub use forward_table::ForwardTable;
pub use gateway_table::GatewayTable;
pub use name_on_bus::{NameOnBus, before_point, behind_point};
pub use need_table::NeedTable;
pub use signal_table::SignalTable;

/// A vehicle file: the tables of its buses, gateways, forwards and needs, in their order.
#[derive(Drop)]
pub struct VehicleFile {
    pub buses: Vec<BusTable>,
    pub gateways: Vec<GatewayTable>,
    pub forwards: Vec<ForwardTable>,
    pub needs: Vec<NeedTable>,
    pub ghost bus_count: { length buses.items ≤ bus_limit },
    pub ghost gateway_count: { length gateways.items ≤ gateway_limit },
    pub ghost forward_count: { length forwards.items ≤ forward_limit },
    pub ghost need_count: { length needs.items ≤ need_limit },
}
