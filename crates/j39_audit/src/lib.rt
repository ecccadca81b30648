//! The audit command: which premises of a plan a log of its bus refutes.
#![tactic(auto)]

mod accusing;
mod again;
mod announcements;
mod answer;
mod asking;
mod audit_log;
mod basis;
mod broadcasts;
mod by_load;
mod claim_marks;
mod deviating;
mod earliest;
mod flow_marks;
mod frame_marks;
mod gaps;
mod idle;
mod known;
mod log_steps;
mod mark;
mod messages;
mod moments;
mod nearness;
mod only_place;
mod pauses;
mod places;
mod queue_times;
mod reading;
mod requests;
mod senders;
mod session_marks;
mod settings;
mod silence;
mod silences;
mod streams;
mod summary;
mod tally;
mod times;
mod window;
mod word_sorts;

pub use answer::audit_text;
