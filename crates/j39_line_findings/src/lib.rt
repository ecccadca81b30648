//! What is found of a line of vehicles: what some possible variant has, with the variant that is its witness.
#![tactic(auto)]

mod counting;
mod enumeration;
mod flow_ends;
mod found;
mod full;
mod line_finding;
mod missed_needs;
mod part;
mod rank;
mod there;
mod witnessed;

pub use counting::goes_by_conditions;
pub use enumeration::longer;
pub use flow_ends::{are_at_one_address, has_end_in_pool, is_end};
pub use found::VariantAnswer;
pub use full::{FullAlternatives, LineNevers, alternatives_of, provides};
pub use line_finding::LineFinding;
pub use missed_needs::{is_need_asked_for, is_unit_there};
pub use part::{LinePart, admits, names, names_choice, part_admits};
pub use rank::{Rank, is_below};
pub use there::{Present, is_part_there, place_in_file};
pub use witnessed::{Witnessed, add};
