//! What is written of the plan of a line of vehicles.
#![tactic(auto)]

mod addresses;
mod certificate;
mod check;
mod hindrances;
mod laws;
mod line_report;
mod load;
mod possible_places;
mod shown_times;
mod standing_lines;
mod time_lines;
mod witness_lines;

pub use addresses::addresses_line_text;
pub use check::check_line_text;
pub use laws::unmet_is_written_where_it_is_found;
pub use load::load_line_text;
