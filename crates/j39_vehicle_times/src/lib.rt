//! How long what gateways send on takes, how old values are that they bring, and what is wrong with these times.
#![tactic(auto)]

mod ages;
mod bus_delays;
mod chains;
mod checking;
mod clocks;
mod ends;
mod finding;
mod flows;
mod laws;
mod needs;

pub use bus_delays::Delays;
pub use chains::queued;
pub use checking::{TimeFindings, find_in_times};
pub use ends::{first_output, is_late_asked};
pub use finding::TimeFinding;
pub use flows::{askers_on, latest_of, us_of_ms};
pub use laws::time_findings_are_exact;
pub use needs::{NeedFlow, flow_of_need, need_flow_count};
