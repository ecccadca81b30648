//! Laws of lines of vehicles: which findings and bounds of some variants are those of all, and on which conditions.
#![tactic(auto)]

mod absence;
mod boxes;
mod covering;
mod findings;
mod full_bounds;
mod full_variants;
mod presence;
mod witnesses;

pub use absence::found_by_absence_exactly;
pub use boxes::{lists_are_boxes, parts_are_there_in_their_boxes, read_lists_name_choices};
pub use covering::{
    covered_variants_are_parts, covering_variants_are_possible,
    covering_variants_have_what_is_found, each_variant_has_a_full_cover,
    full_variants_suffice_but_for_absence, only_absence_is_found_of_covered_variants,
    variants_have_findings,
};
pub use findings::findings_go_by_conditions;
pub use full_bounds::{
    flows_of_full_variants_bound_all, full_variants_report_of_units,
    full_variants_report_who_stays, needs_of_full_variants_bound_all,
};
pub use full_variants::{
    each_variant_has_a_full_cover_for_a_need, full_variants_count_all_that_is_there,
    full_variants_have_what_is_found, nevers_change_nothing_that_is_built,
    old_needs_are_found_of_full_variants, old_needs_reported_of_full_variants_are_reported_of_all,
    reported_of_full_variants_is_reported_of_all,
};
pub use presence::what_is_there_is_found;
pub use witnesses::what_is_reported_is_what_variants_have;
