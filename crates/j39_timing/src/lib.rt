//! How long frames wait on a CAN bus: the bits of frames, schedules, and the worst-case response time of a frame beside
//! streams of others (Davis, Burns, Bril, Lukkien: Controller Area Network (CAN) schedulability analysis, Real-Time
//! Systems 35, 2007). Time is counted in bits.
#![tactic(auto)]

mod frame_length;
mod laws;
mod lines;
mod stream;
mod waiting;
mod wants;

pub use frame_length::{ERROR_FRAME, frame_bits};
pub use laws::{
    a_bound_is_reached, a_bound_of_a_queue_group_is_reached, a_bound_of_answers_is_reached,
    a_bound_of_twins_is_reached, a_bus_with_errors_is_legal, ages_are_bounded, answers_are_in_time,
    answers_ask_for_no_more, broadcasts_can_be_sent, frames_are_in_time_until,
    frames_behind_one_another_are_in_time, frames_beside_any_order_are_in_time,
    frames_of_a_queue_group_are_in_time, messages_ask_for_no_more,
    messages_in_turn_are_whole_in_time, planned_frames_are_in_time, what_is_answered_is_reached,
    what_is_wanted_is_reached,
};
pub use stream::{Stream, WantedBy};
pub use waiting::least_wait;
pub use wants::{Want, Wanted};
