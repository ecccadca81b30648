//! What is wrong with network plans of SAE J1939.
#![tactic(auto)]

mod checking;
mod conflict_run;
mod laws;
pub mod sending;
mod standing;

pub use checking::{CheckedPlan, Finding, Findings, Refused, RefusedCause, check, checked};
pub use conflict_run::bad_run;
pub use laws::{
    clean_parts, clean_where_none, conflict_runs_are_exact, found_exactly, needs_are_met,
    one_group_fits, plans_of_one_length_each, plans_without_needs, plans_without_optional_signals,
    plans_without_private_groups, plans_without_records, plans_without_requests,
    plans_without_selectors, plans_without_texts, records_are_counted, requests_are_served,
    serial_numbers_change_nothing, signals_are_sound,
};
pub use standing::Standing;
