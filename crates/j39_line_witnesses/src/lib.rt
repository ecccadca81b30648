//! Which possible variant of a line of vehicles is the first that has a finding, where it has it by what is there and
//! what isn't.
#![tactic(auto)]

mod asked;
mod boxes;
mod choices;
mod conditions;
mod flow_tests;
mod found;
mod known;
mod laws;
mod lists;
mod order;
mod possible;
mod presence;
mod private_pairs;
mod witness;

pub use asked::candidates;
pub use boxes::{list_box, never_holes, parts_box};
pub use choices::reported_choices;
pub use conditions::conditions_of;
pub use found::{FoundByCondition, found_by_conditions};
pub use laws::{boxes_are_exact, witnessed_are_exact};
pub use order::is_earlier;
pub use possible::possible_parts;
pub use presence::Presence;
pub use witness::is_any_variant_possible;
