//! The follow command: who sent what, by the claims of a log itself.
#![tactic(auto)]

mod address;
mod bare_frame;
mod flow;
mod frame_report;
mod laws;
mod line;
mod line_report;
mod log_text;
mod message;
mod notice;
mod pair;
mod request;
mod unit_report;

pub use address::party_text::write_name;
pub use address::who::{Who, unit_named};
pub use flow::endings::write_to;
pub use flow::sending::{Aim, Sending, flow_of, group_of};
pub use laws::{
    a_followed_log_has_one_text, contests_are_short, contests_last_a_wait,
    follow_and_read_see_alike, groups_are_reported_alike, holders_are_one_to_one,
    messages_count_once, names_are_of_their_units, received_messages_are_as_sent,
};
pub use line::log_line::{interface, is_elsewhere, read_part, time_text};
pub use line::moment::moment;
pub use line_report::{keep_interface, kept_interface};
pub use log_text::follow_text;
