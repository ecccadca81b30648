//! The worlds of a simulated bus, the steps that lead from one to the next, and what is said of all runs.
#![tactic(auto)]

mod bus_error;
mod flow;
mod step_error;
mod wired;

pub use bus_error::BusError;
pub use flow::Flow;
pub use step_error::StepError;
pub use wired::{Short, Wired};
