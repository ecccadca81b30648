//! Laws of packets and of receivers.
ghost use Rattle.std.specs.Prelude.{◌≡◌, ℕ, true, List, [], ◌∷◌, ◌++◌, length};
ghost use Rattle.j39_tp.specs.Carried.{AreInRange, CompletesAt, Carried};
ghost use Rattle.j39_tp.specs.Gathered.{Gathers, HoldsCarried};
ghost use Rattle.j39_tp.specs.HonestPackets.{AnnouncesMessage, GoesOn, StatesLast, CarriesItsMessage};
ghost use Rattle.j39_tp.specs.Packets.{InRange, ManagementReadsBack, DataReadsBack, AreOneManagement, AreOneData};
ghost use Rattle.j39_tp.specs.Receiver.{Receiving, hears, is_complete, receives, gives_up};

use crate::{Packet, PacketError, from_cm, from_dt, known_ranges, to_data};

/// What is sent is read as what it is.
pub fn sent_packets_read_back()
    ensures management { ManagementReadsBack }
    ensures data { DataReadsBack }
{}

/// Bytes are read as at most one packet.
pub fn bytes_are_one_packet()
    ensures management { AreOneManagement }
    ensures data { AreOneData }
{}

/// A listener that hears packets from closed completes a message exactly where they carry one, and then holds that
/// message.
pub fn listener_completes_what_is_carried()
    ensures completed { (h : List Packet) (place pgn : ℕ) (message : List ℕ) → AreInRange h
        → CompletesAt h place pgn message → Carried h place pgn message }
    ensures carried { (h : List Packet) (place pgn : ℕ) (message : List ℕ) → Carried h place pgn message
        → CompletesAt h place pgn message }
{}

/// A place of a list of packets carries one message.
pub fn a_place_carries_one_message()
    ensures pgn { (h : List Packet) (place pgn other : ℕ) (message words : List ℕ) → Carried h place pgn message
        → Carried h place other words → pgn ≡ other }
    ensures bytes { (h : List Packet) (place pgn other : ℕ) (message words : List ℕ) → Carried h place pgn message
        → Carried h place other words
        → message ≡ words }
{}

/// A receiver of any manner gathers what the packets that it heard carry, and completes only what they carry.
pub fn receivers_gather_what_they_hear()
    ensures hears { (h : List Packet) (s : Receiving) (p : Packet) → InRange p → Gathers h s.progress s.bytes
        → Gathers (h ++ p ∷ []) (receives s p).progress (receives s p).bytes }
    ensures times_out { (h : List Packet) (s : Receiving) → Gathers h s.progress s.bytes
        → Gathers h (gives_up s).progress (gives_up s).bytes }
    ensures completes { (h : List Packet) (s : Receiving) (p : Packet) → Gathers h s.progress s.bytes
        → is_complete (hears s.manner s.progress p).1 ≡ true → HoldsCarried (h ++ p ∷ []) (length h) (receives s p) }
{}

/// What an honest sender has put on the bus since its announcement carries its message and no other.
pub fn honest_packets_carry_their_message()
    ensures announced { (h : List Packet) (pgn : ℕ) (bytes : List ℕ) (p : Packet) → AnnouncesMessage pgn bytes p
        → StatesLast (h ++ p ∷ []) pgn bytes }
    ensures goes_on { (h : List Packet) (pgn : ℕ) (bytes : List ℕ) (p : Packet) → GoesOn bytes p
        → StatesLast h pgn bytes
        → StatesLast (h ++ p ∷ []) pgn bytes }
    ensures carries { CarriesItsMessage }
{}
