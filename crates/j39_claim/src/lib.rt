//! Address claims of SAE J1939-81: what a unit notes of what it hears, what it answers and where it moves.
#![tactic(auto)]

mod address_counts;
mod address_set;
mod choose;
mod claimer;
mod free_pool;
mod item;
mod laws;
mod lowest;
mod notes;
mod upward;

pub use address_set::AddressSet;
pub use choose::Choose;
pub use claimer::Claimer;
pub use item::{Item, Say};
pub use laws::{lawful_picks_follow_the_rule, lowest_free_is_least, next_free_is_next};
pub use lowest::Lowest;
pub use upward::Upward;
