//! Schedules: files of orders, one a line; how they are read, and how steps are written as one.
#![tactic(auto)]

mod laws;
mod line_fault;
mod line_words;
mod messages;
mod order_line;
mod order_word;
mod step_lines;
mod unit_index;
mod units;
mod unread;
mod values;

pub use laws::{first_fault_is_reported, written_steps_read_back};
pub use line_fault::LineFault;
pub use order_line::read_line;
pub use step_lines::write_steps;
pub use units::Units;
pub use unread::Unread;
