//! What is wrong with what a plan asks of its bus.

mod ages;
mod asked_share;
mod asking;
mod faults;
mod load_answer;
mod load_finding;

pub(crate) use ages::smaller;
pub use ages::{has_several, least_age, youngest_flow};
pub use asking::asked_every;
pub use load_answer::{LoadAnswer, check_load};
pub use load_finding::LoadFinding;
