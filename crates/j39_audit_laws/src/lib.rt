//! What the lines of an audit mean, and whom they don't accuse.
#![tactic(auto)]

mod laws;
mod log_laws;
mod plan_laws;
mod witnesses;

pub use laws::{
    an_audit_has_one_text, deaf_is_exact, idle_marks_are_right, kept_pauses_are_not_silent_by_load,
    kept_plans_are_not_accused, kept_plans_are_not_near_by_load, lines_are_of_the_log,
    logs_of_kept_plans_are_not_near_by_load, near_is_exact, no_frame_is_unsure,
    no_stream_is_reported_wrongly, nobody_is_accused_where_strangers_come, runs_are_not_accused,
    runs_keep_all_parts, silent_is_exact, the_deaf_are_noted, the_late_are_noted,
    the_near_are_noted, the_silent_are_noted, what_is_found_is_written, who_answers_is_not_deaf,
    who_claims_by_the_plan_is_not_accused, who_is_long_silent_is_reported,
    who_is_sent_in_time_is_not_reported, who_keeps_a_pause_is_not_silent,
    who_keeps_a_step_is_not_near, who_keeps_its_part_is_not_accused,
    who_sends_by_the_plan_is_not_accused, who_sends_in_turn_is_not_silent,
    whole_logs_of_kept_periods_are_not_near, whole_logs_of_kept_plans_are_not_near,
};
pub use log_laws::{
    breaks_are_by_numbers, full_buses_show_no_idle_bit, judged_broadcasts_are_planned,
    right_claims_are_by_the_plan, senders_are_known_by_claims,
};
pub use plan_laws::{silence_is_told_of_flows_that_show_it, timed_flows_are_judged_by_load};
pub use witnesses::a_whole_log_can_be_kept;
