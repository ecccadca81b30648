//! Texts of frames, and the buffer that all texts are written in.
#![tactic(auto)]

mod frame;
mod input;
mod labels;
mod laws;
mod putting;
mod quotation;
mod quotient;
mod text_buffer;

pub use frame::{frame_text, write_destination};
pub use input::input_text;
pub use labels::{
    group_label, group_pgn, group_selector_end, signal_bits, signal_end, signal_label, text_end,
    text_label, unit_address, unit_label, write_group, write_need, write_units,
};
pub use laws::{
    a_line_has_one_text, quotations_yield_their_bytes, quotients_are_exact,
    undivided_numbers_stay_whole,
};
pub use putting::put_text;
pub use quotation::write_quotation;
pub use quotient::write_quotient;
pub use text_buffer::{ReportResult, TextBuffer, WriteResult};
