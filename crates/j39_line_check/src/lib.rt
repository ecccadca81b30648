//! What is found of a line of vehicles, and what is reported of its times: by conditions, and by its fullest variants.
#![tactic(auto)]

mod answer;
mod check;
mod conditions;
mod counted;
mod full_sets;
mod inserting;
mod laws;
mod looking;
mod set_variants;
mod variant_laws;

pub use answer::{LineAnswer, LookedAt, ReportedFinding};
pub use check::{check_line, check_line_with_times};
pub use conditions::{
    findings_are_had_by_what_is_reported, reported_findings_are_had,
    what_is_reported_is_a_condition, what_is_reported_leads_to_witnesses,
    what_is_reported_may_be_all,
};
pub use counted::counted_findings;
pub use full_sets::{looked_at, number_of_variants, widest_sets};
pub use laws::nothing_reported_is_nothing_found;
pub use looking::{FullVariants, LOOKED_LIMIT, Looking, look};
pub use set_variants::{variants_of_set, variants_of_sets};
pub use variant_laws::{
    full_variants_are_looked_at, needs_have_their_full_alternatives, number_of_variants_is_one,
    variants_are_of_sets,
};
