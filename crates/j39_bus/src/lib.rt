//! A simulated bus of a planned network: its units, the frames between each two of them, and its steps.
#![tactic(auto)]

mod bus;
mod claim_frames;
mod claiming;
mod claims;
mod flows;
mod hearing;
mod network;
mod opening;
mod places;
mod queues;
mod receivers;
mod refusing;
mod report;
mod session;
mod sessions;
mod stepping;
mod switching_off;
mod transfer_frames;
mod transferring;
mod wire;

pub use bus::Bus;
pub use j39_world::{BusError, StepError};
pub use report::Report;
