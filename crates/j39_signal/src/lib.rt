//! Signals of SAE J1939 parameter groups, and the layouts that they make of a payload.
#![tactic(auto)]

mod bits;
mod kind;
mod laws;
mod layout;
mod layout_error;
mod payload;
mod scaling;
mod selecting;
mod selector;
mod signal;
mod signal_parts;
mod state;
mod write_error;

pub use kind::Kind;
pub use laws::{others_count_up, signals_are_sound};
pub use layout::Layout;
pub use layout_error::LayoutError;
pub use selecting::is_selected;
pub use selector::Selector;
pub use signal::{Signal, divides_decimally};
pub use state::{Shown, State};
pub use write_error::WriteError;
