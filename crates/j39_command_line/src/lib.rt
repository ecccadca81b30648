//! The words of the command line, and what they order.
#![tactic(auto)]

mod command_line;
mod commands;
mod orders;

pub use command_line::order;
pub use orders::{Frames, Order, WordsFault};
