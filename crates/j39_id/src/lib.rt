//! Identifiers, group numbers, addresses, NAMEs and frame lines of SAE J1939.
#![tactic(auto)]

mod address;
pub mod addresses;
mod advance;
mod cut;
mod cutter;
mod frame;
mod frame_meaning;
mod hex_digits;
mod ident;
mod label;
mod last_word;
mod laws;
pub mod limits;
mod line_error;
mod name;
mod name_fields;
mod pgn;
mod printing;
pub mod proprietary;
mod reading;
pub mod services;

pub use address::Address;
pub use advance::Advance;
pub use cut::Cut;
pub use cutter::{Cutter, LINE_LIMIT};
pub use frame::Frame;
pub use frame_meaning::{
    cannot_claim, carried_name, claims_address, requested_group, requests_group,
};
pub use ident::{IDENTIFIER_END, Ident};
pub use label::Label;
pub use last_word::{is_separator, split_last, words_end};
pub use laws::{
    a_cutter_yields_the_lines, canonical_text_spells, names_and_bytes_are_inverse, one_reading,
};
pub use line_error::LineError;
pub use name::Name;
pub use name_fields::{NameError, NameField, NameFields};
pub use pgn::{EXTENDED_PAGE, PDU2_FIRST, Pgn, number_of_bytes, pf_of};
pub use printing::print_frame;
pub use reading::read_frame;
