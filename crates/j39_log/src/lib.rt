//! The read command: what a log says of the groups of a plan.
#![tactic(auto)]

mod address_report;
mod catalog;
mod first_flows;
mod group_report;
mod groups;
mod laws;
mod line_counts;
mod listeners;
mod log_reader;
mod log_report;
mod log_text;
mod name_table;
mod named_lines;
mod names;
mod readings;
mod record_lines;
mod report_head;
mod reported_log;
mod text_lines;
mod transport;
mod trouble_code;
mod value_line;

pub use catalog::{CatalogError, Span};
pub use group_report::write_digits;
pub use groups::Groups;
pub use laws::{
    a_log_has_one_text, older_plans_are_read_as_before, plans_without_names_are_read_as_before,
};
pub use line_counts::LineCounts;
pub use listeners::{Listeners, listen};
pub use log_report::LogReport;
pub use log_text::read_text;
pub use readings::write_group_readings;
pub use reported_log::report_log;
pub use transport::transport_packet;
pub use value_line::ValueLine;
