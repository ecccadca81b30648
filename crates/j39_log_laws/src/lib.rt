//! What the frames of a bus report whoever follows its log.
#![tactic(auto)]

mod laws;

pub use laws::{
    ends_keep_addresses, frames_report_holders, kinds_are_of_fields, messages_go_between_holders,
    quiet_frames_report_holders, single_frames_are_reported_as_begun,
    types_stand_for_runs_of_vehicles,
};
