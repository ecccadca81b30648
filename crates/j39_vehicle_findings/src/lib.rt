//! What reaches whom over the gateways of a vehicle: where what a unit needs comes from, and what is wrong with what
//! gateways send on.
#![tactic(auto)]

mod buses;
mod checking;
mod finding;
mod forwards;
mod laws;
mod loops;
mod matching;
mod passing;
mod point;
mod reaching;
mod routes;
mod tables;
mod traces;

pub use buses::{flows_on, group_at};
pub use checking::{VehicleFindings, find_in_paths, find_in_queues};
pub use finding::VehicleFinding;
pub use forwards::{feeds, first_input, is_direct, is_input, is_output, output_flows};
pub use laws::vehicle_findings_are_exact;
pub use point::{FlowAt, Point};
pub use routes::Routes;
pub use tables::{PathTables, path_tables};
