//! The transport protocol of SAE J1939-21: its packets, and the machines that send and receive messages.
#![tactic(auto)]

mod laws;
mod message;
mod packet;
mod receiving;
mod sending;

pub use laws::{
    a_place_carries_one_message, bytes_are_one_packet, honest_packets_carry_their_message,
    listener_completes_what_is_carried, receivers_gather_what_they_hear, sent_packets_read_back,
};
pub use message::Message;
pub use packet::{Chunk, Packet, PacketError, Size, from_cm, from_dt, known_ranges, to_data};
pub use receiving::{Heard, Receiver};
pub use sending::{Busy, Dest, Outcome, Phase, Reaction, Sender, Transfer};
