//! Plans of lines of vehicles: what their files say of choices, and the plan of each variant.
#![tactic(auto)]

mod laws;
mod line;
mod reading;
mod search;
mod variant;
mod variant_plan;

pub use laws::{a_plan_without_choices_has_one_variant, one_variant_is_the_first};
pub use line::{Alternative, Choice, Lists, ProductLine};
pub use reading::{ListedItem, named, read_product_line};
pub use search::first_possible;
pub use variant::{is_in, is_possible};
pub use variant_plan::plan_of;
