//! Sessions of the transport protocol that a log shows: what of them no unit sends that keeps to it.
#![tactic(auto)]

mod fault;
mod laws;
mod opening;
mod pair_sessions;
mod reading;
mod role;
mod session;
mod sessions;

pub use fault::SessionFault;
pub use laws::{
    right_answers_are_not_told, uncleared_packets_are_told, wrong_announcements_are_told,
    wrong_answers_are_told,
};
pub use opening::announces_rightly;
pub use pair_sessions::{Before, PairSessions};
pub use role::{Clearance, Receipt, Role};
pub use session::LoggedSession;
pub use sessions::Sessions;
