//! What is written of a vehicle of several buses: why its file is refused, what is wrong with the plans of its buses,
//! what its gateways send on and what its units need, and everything that is wrong with these.
#![tactic(auto)]

mod beyond_plans;
mod bus_blocks;
mod bus_file;
mod certificate;
mod file_text;
mod finding_lines;
mod forward_lines;
mod labels;
mod need_lines;
mod refusals;
mod vehicle_report;
mod ways;
mod whole_text;

pub use bus_file::bus_plan;
pub use certificate::certify_vehicle;
pub use file_text::vehicle_file;
pub use whole_text::vehicle_text;
