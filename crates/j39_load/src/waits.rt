//! How long frames wait, and when long messages to all are whole.

mod delay;
mod delays;
mod demands;
mod turn;
mod turns;
mod twins;
mod whole_time;

pub use delay::Delay;
pub(crate) use demands::{announcements_demand, demands_of, packets_demand};
pub use turn::Turn;
pub use whole_time::WholeTime;
