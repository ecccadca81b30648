//! What holds in each of some variants of a line of vehicles: which of its units stay, and bounds of its times.
#![tactic(auto)]

mod laws;
mod standing;
mod times;

pub use laws::{
    reported_numbers_bound_times, standings_are_exact, times_bound_these, units_have_one_standing,
};
pub use standing::{LineStanding, line_standings};
pub use times::{FlowTime, LineTimes, NeedTime, no_times, times_with};
