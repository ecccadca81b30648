//! What the bus carries: which units stay at their addresses, how urgent the frames of each flow are, how much of the
//! bus they take, and how long they wait.
#![tactic(auto)]

mod findings;
mod frames;
mod laws;
mod live_claims;
mod loads;
mod queues;
mod waits;

pub use findings::{
    LoadAnswer, LoadFinding, asked_every, check_load, has_several, least_age, youngest_flow,
};
pub use frames::{Broadcast, FlowFrames, Messages, bits_of_ms, bits_of_second, us_of_bits};
pub use laws::{
    broadcasts_that_keep_a_plan, clocks_are_counted, delays_are_bounds,
    flows_asked_for_too_often_are_reported, frames_that_keep_a_plan, identifiers_lie_between,
    kept_plans_are_in_time, kept_plans_bring_values_in_time, kept_plans_keep_reported_times,
    kept_plans_lose_no_receiver, kept_plans_meet_deadlines, loads_hold_in_the_long_run,
    long_messages_can_be_sent_whole, long_messages_take_the_frames_reported,
    needed_values_are_read_in_time, needs_stay_fresh, plans_can_be_kept,
    plans_can_be_kept_together, plans_can_be_kept_whole, plans_can_be_kept_without_a_unit,
    plans_in_order, requests_ask_no_oftener, serial_numbers_change_no_load,
    short_flows_have_different_identifiers, written_bytes_are_reported,
};
pub use live_claims::timing_of;
pub use loads::{FlowLoad, Loads, RequestLoad, UnitLoad, answered_within, askers_of};
pub use waits::{Delay, WholeTime};
