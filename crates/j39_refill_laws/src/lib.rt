//! Laws of schedules in which units refill one buffer, or hold back behind each frame that they sent.
#![tactic(auto)]

mod laws;

pub use laws::{
    a_bound_with_refill_is_reached, frames_beside_refills_are_legal,
    frames_with_refill_are_in_time, refills_beside_damage_are_legal,
};
