//! What holds in each run of a planned network, and the certificate of a checked plan.
#![tactic(auto)]

mod certificate;
mod laws;

pub use certificate::{certify, clean_plans_are_sound};
pub use laws::{
    a_needed_value_arrives, a_sent_value_arrives, acknowledged_messages_were_reported,
    addresses_are_sound, alone_units_are_undisturbed, answered_messages_arrive, claims_die_down,
    conflict_runs_show_the_conflict, ends_are_undisturbed, every_transfer_ends,
    flows_have_one_length, kept_addresses_stay_free, planned_addresses_stay, quiet_notes_are_right,
    reports_are_sound, runs_through_are_runs, sent_frames_are_sound, sent_frames_arrive,
    silent_units_are_undisturbed, smaller_names_are_undisturbed, steps_lead_somewhere,
    strangers_can_come, strangers_disturb_no_message, strangers_keep_addresses,
    unanswered_messages_arrive, units_hold_planned_or_pool_addresses,
    units_only_stop_between_messages, units_stay_in_each_vehicle, who_stays,
    who_stays_with_strangers,
};
