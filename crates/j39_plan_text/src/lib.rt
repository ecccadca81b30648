//! What is written of a plan file: why it is refused, and everything that is wrong with the plan.
#![tactic(auto)]

mod addresses;
mod certificate;
mod each;
mod finding_lines;
mod laws;
mod live_identifiers;
mod load;
mod load_lines;
mod plan_file;
mod plan_report;
mod reporting;
mod show;
mod show_lines;
mod stays_lines;
mod variant;

pub use addresses::{is_of_addresses, stays_report};
pub use certificate::clean_plans_are_certified;
pub use each::{WriteLines, write_each};
pub use finding_lines::{write_finding, write_run};
pub use laws::{
    addresses_have_one_text, check_has_one_text, load_has_one_text,
    plans_without_choices_are_shown_alone, serial_numbers_change_no_text, show_has_one_text,
    written_runs_read_back, written_runs_show_the_conflict,
};
pub use live_identifiers::live_flows_have_different_identifiers;
pub use load::{hides_times, load_report};
pub use load_lines::{
    write_age, write_flow, write_known_delay, write_load, write_load_finding, write_time,
};
pub use plan_file::{line_text, refuse_choices, write_choices_refused, write_refusal};
pub use plan_report::{check_report, write_check};
pub use reporting::{LineReport, report_text};
pub use show::show_text;
pub use variant::variant_text;
