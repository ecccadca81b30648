//! Receivers of messages.
ghost use Rattle.std.specs.Prelude.{◌≡◌, ◌<◌, ◌≤◌, ◌++◌, ◌↔◌, true, take, length, IsSome, IfSome};
ghost use Rattle.j39_tp.specs.Receiver.{grown, bytes_at};
ghost use Rattle.j39_tp.specs.inside.Held.{is_within, is_held_at};

use super::manner::Manner;
use super::progress::Progress;
use crate::{Chunk, Heard, Packet, Size, known_ranges};
use arrayvec::ArrayVec;
use j39_id::Pgn;
use j39_id::limits::{MESSAGE_BYTES, PACKET_BYTES};
use std::marker::Model;

/// A receiver of the messages of one sender (SAE J1939-21, transport protocol).
#[derive(Drop)]
pub struct Receiver {
    manner: Manner,
    progress: Progress,
    bytes: ArrayVec<u8, MESSAGE_BYTES>,
}

impl Model for Receiver {
    ghost use Rattle.std.specs.Prelude.{◌≡◌, ◌&&◌, true};
    ghost use Rattle.j39_tp.specs.Receiver.{Receiving};
    ghost use Rattle.j39_tp.specs.inside.Held.{is_within, is_held_at};

    ghost Value = { Receiving };

    ghost view = { λ r. record { manner = r.manner; progress = r.progress; bytes = r.bytes.items } };

    ghost invariant = { λ r. is_within r.progress && is_held_at r.progress r.bytes.items ≡ true };
}

// Holds the bytes of the packets in order, at most those of the message.
fn hold(bytes: &mut ArrayVec<u8, MESSAGE_BYTES>, progress: Progress, packet: &Packet)
    requires within { is_within progress ≡ true }
    requires held { is_held_at progress bytes.old.items ≡ true }
    ensures { bytes.new.items ≡ grown progress packet.now bytes.old.items }
{
    match *packet {
        Packet::Bam { .. } | Packet::Rts { .. } => bytes.clear(),
        Packet::Dt { number, chunk } => match progress {
            Progress::Open(reception) if number == reception.held + 1 => {
                append(bytes, reception.size, chunk)
            }
            _ => {}
        },
        _ => {}
    }
}

// Holds nothing where a receiver is closed.
fn settle(bytes: &mut ArrayVec<u8, MESSAGE_BYTES>, progress: Progress)
    ensures { bytes.new.items ≡ bytes_at progress bytes.old.items }
{
    if matches!(progress, Progress::Closed) {
        bytes.clear();
    }
}

// Appends the bytes of a chunk that belong to a message of this size.
fn append(bytes: &mut ArrayVec<u8, MESSAGE_BYTES>, size: Size, chunk: Chunk)
    requires { length bytes.old.items ≤ size }
    ensures { bytes.new.items ≡ take size (bytes.old.items ++ chunk) }
{
    let missing = usize::from(size.bytes()) - bytes.len();
    let Ok(()) = bytes.try_extend_from_slice(&chunk[..missing.min(PACKET_BYTES)]) else {
        unreachable!()
    };
}

impl Receiver {
    ghost use Rattle.j39_id.specs.Limits.{message_bytes};
    ghost use Rattle.j39_tp.specs.declared.receiving.manner.Manner.TheVariants.{Answering, Listening};
    ghost use Rattle.j39_tp.specs.Receiver.{fresh, hears, receives, timed_out, gives_up, is_open_at, pgn_at};
    ghost use Rattle.j39_tp.specs.Receiver.{message_of, completed_size};

    /// A closed receiver that grants at most `window` packets in each CTS; `None` for 0.
    pub fn new(window: u8) -> Option<Self>
        ensures valid { IsSome result ↔ (0 < window) }
        ensures value { IfSome result (λ r. r ≡ fresh (Answering window)) }
    {
        if window == 0 {
            return None;
        }
        Some(Self::with_manner(Manner::Answering { window }))
    }

    /// A closed receiver that answers nothing.
    pub fn listener() -> Self
        ensures { result ≡ fresh Listening }
    {
        Self::with_manner(Manner::Listening)
    }

    fn with_manner(manner: Manner) -> Self
        ensures { result ≡ fresh manner }
    {
        Receiver {
            manner,
            progress: Progress::Closed,
            bytes: ArrayVec::new(),
        }
    }

    /// What it does with a packet of its sender.
    pub fn hear(&mut self, packet: &Packet) -> Heard
        ensures answer { result ≡ (hears self.old.manner self.old.progress packet.now).1 }
        ensures after { self.new ≡ receives self.old packet.now }
    {
        let (progress, heard) = self.progress.hear(self.manner, packet);
        known_ranges(packet);
        hold(&mut self.bytes, self.progress, packet);
        self.progress = progress;
        settle(&mut self.bytes, self.progress);
        heard
    }

    /// The size of the message that a packet completes, `None` where it completes none.
    pub fn completes(&self, packet: &Packet) -> Option<Size>
        ensures { result ≡ completed_size self.now packet.now }
    {
        known_ranges(packet);
        self.progress.last_size(packet)
    }

    /// What it sends where nothing was heard in time.
    pub fn late(&mut self) -> Option<Packet>
        ensures packet { result ≡ (timed_out self.old.manner self.old.progress).1 }
        ensures after { self.new ≡ gives_up self.old }
    {
        let (progress, packet) = self.progress.time_out(self.manner);
        self.progress = progress;
        settle(&mut self.bytes, self.progress);
        packet
    }

    /// Whether a session is open.
    pub fn is_open(&self) -> bool
        ensures { result ≡ is_open_at self.now.progress }
    {
        matches!(self.progress, Progress::Open(_))
    }

    /// The PGN of the open session, or of the message that `bytes` gives.
    pub fn group(&self) -> Option<Pgn>
        ensures { result ≡ pgn_at self.now.progress }
    {
        self.progress.pgn()
    }

    /// The message that was completed last, until the next announcement; else nothing.
    pub fn bytes(&self) -> &[u8]
        ensures value { result.now ≡ message_of self.now.progress self.now.bytes }
        ensures range { length result.now ≤ message_bytes }
    {
        match self.progress {
            Progress::Complete(_) => self.bytes.as_slice(),
            _ => &[],
        }
    }
}
