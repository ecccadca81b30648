//! Laws of parts of a plan: some of its units, groups, flows and requests.
#![tactic(auto)]

mod laws;

pub use laws::{
    delays_hold_in_parts, less_asked_waits_no_longer, loads_of_parts_are_found_in_wholes,
    only_absence_is_found_of_parts, parts_are_found_in_wholes, parts_ask_no_more,
    plans_have_load_findings, who_stays_in_a_part,
};
