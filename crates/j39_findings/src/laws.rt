//! Laws of plans and their findings.

mod conflict_runs;
mod findings;
mod lengths;
mod needs;
mod optional;
mod private_groups;
mod records;
mod requests;
mod selectors;
mod signals;
mod texts;
mod vehicles;

pub use conflict_runs::conflict_runs_are_exact;
pub use findings::{clean_parts, clean_where_none, found_exactly};
pub use lengths::plans_of_one_length_each;
pub use needs::{needs_are_met, plans_without_needs};
pub use optional::plans_without_optional_signals;
pub use private_groups::{one_group_fits, plans_without_private_groups};
pub use records::{plans_without_records, records_are_counted};
pub use requests::{plans_without_requests, requests_are_served};
pub use selectors::plans_without_selectors;
pub use signals::signals_are_sound;
pub use texts::plans_without_texts;
pub use vehicles::serial_numbers_change_nothing;
