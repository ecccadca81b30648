//! Where a receiver stands.
ghost use Rattle.std.specs.Prelude.{◌≡◌, ◌<◌, true};
ghost use Rattle.j39_tp.specs.Chunks.{packets_of};
ghost use Rattle.j39_tp.specs.Receiver.{going_on, takes_next, takes_later, takes_data, asks, hears, timed_out, pgn_at};
ghost use Rattle.j39_tp.specs.inside.Held.{is_within, last_size};

use super::manner::Manner;
use super::reception::{Reception, ReceptionKind};
use crate::packet::NO_LIMIT;
use crate::packet::reasons::{ASKED_TOO_OFTEN, TIMEOUT};
use crate::{Heard, Packet, Size};
use j39_id::Pgn;

/// How often a session asks again for a packet.
const ASK_LIMIT: u8 = 2;

/// Where a receiver stands.
#[derive(Clone, Copy)]
pub enum Progress {
    /// No session is open, and no message is held.
    Closed,
    /// A session is open.
    Open(Reception),
    /// A message of this PGN is held whole.
    Complete(Pgn),
}

// Goes on with a session: an answering receiver grants packets of a message to it alone.
fn go_on(manner: Manner, reception: Reception) -> (Progress, Heard)
    requires { reception.held < packets_of reception.size }
    ensures result { result ≡ going_on manner reception.kind reception }
    ensures within { is_within result.0 ≡ true }
{
    match manner {
        Manner::Answering { window } if reception.kind == ReceptionKind::Directed => {
            let (granted, packet) = reception.clear(window);
            (Progress::Open(granted), Heard::Reply(packet))
        }
        _ => (Progress::Open(reception), Heard::Nothing),
    }
}

// Asks again for the packets after those that are held, or gives the session up for this reason.
fn ask(reception: Reception, window: u8, reason: u8) -> (Progress, Packet)
    requires { reception.held < packets_of reception.size }
    ensures result { result ≡ asks window reason reception }
    ensures within { is_within result.0 ≡ true }
{
    if reception.asked >= ASK_LIMIT {
        let pgn = reception.pgn;
        return (Progress::Closed, Packet::Abort { reason, pgn });
    }
    let asking = Reception {
        asked: reception.asked + 1,
        ..reception
    };
    let (granted, packet) = asking.clear(window);
    (Progress::Open(granted), packet)
}

// Takes the packet after those that are held.
fn take_next(manner: Manner, reception: Reception) -> (Progress, Heard)
    requires { reception.held < packets_of reception.size }
    ensures result { result ≡ takes_next manner reception }
    ensures within { is_within result.0 ≡ true }
{
    let taken = Reception {
        held: reception.held + 1,
        ..reception
    };
    if taken.held < taken.size.packets() {
        return if taken.held == taken.granted {
            go_on(manner, taken)
        } else {
            (Progress::Open(taken), Heard::Nothing)
        };
    }
    let heard = match manner {
        Manner::Answering { .. } if taken.kind == ReceptionKind::Directed => {
            Heard::CompleteReply(Packet::EndAck {
                size: taken.size,
                pgn: taken.pgn,
            })
        }
        _ => Heard::Complete,
    };
    (Progress::Complete(taken.pgn), heard)
}

// Hears a packet that comes after a missing one.
fn take_later(manner: Manner, reception: Reception, number: u8) -> (Progress, Heard)
    requires { reception.held < packets_of reception.size }
    ensures result { result ≡ takes_later manner reception.kind reception number }
    ensures within { is_within result.0 ≡ true }
{
    if reception.kind == ReceptionKind::Broadcast {
        return (Progress::Closed, Heard::Closed);
    }
    match manner {
        Manner::Answering { window } if number == reception.granted => {
            let (progress, packet) = ask(reception, window, ASKED_TOO_OFTEN);
            (progress, Heard::Reply(packet))
        }
        _ => (Progress::Open(reception), Heard::Nothing),
    }
}

// Hears a data packet in an open session.
fn take(manner: Manner, reception: Reception, number: u8) -> (Progress, Heard)
    requires { reception.held < packets_of reception.size }
    ensures result { result ≡ takes_data manner reception number }
    ensures within { is_within result.0 ≡ true }
{
    if number <= reception.held {
        (Progress::Open(reception), Heard::Nothing)
    } else if number == reception.held + 1 {
        take_next(manner, reception)
    } else {
        take_later(manner, reception, number)
    }
}

impl Progress {
    /// Where a receiver stands once it heard a packet, and what it does.
    pub(crate) fn hear(self, manner: Manner, packet: &Packet) -> (Self, Heard)
        requires { is_within self ≡ true }
        ensures result { result ≡ hears manner self packet.now }
        ensures within { is_within result.0 ≡ true }
    {
        match *packet {
            Packet::Bam { size, pgn } => {
                go_on(
                    manner,
                    Reception::open(ReceptionKind::Broadcast, pgn, size, NO_LIMIT),
                )
            }
            Packet::Rts { size, limit, pgn } => {
                go_on(
                    manner,
                    Reception::open(ReceptionKind::Directed, pgn, size, limit),
                )
            }
            Packet::Dt { number, .. } => match self {
                Progress::Open(reception) => take(manner, reception, number),
                _ => (self, Heard::Nothing),
            },
            Packet::Abort { pgn, .. } => match self {
                Progress::Open(reception)
                    if reception.kind == ReceptionKind::Directed && reception.pgn == pgn => {
                    (Progress::Closed, Heard::Closed)
                }
                _ => (self, Heard::Nothing),
            },
            _ => (self, Heard::Nothing),
        }
    }

    /// Where a receiver stands once nothing was heard in time, and what it sends.
    pub(crate) fn time_out(self, manner: Manner) -> (Self, Option<Packet>)
        requires { is_within self ≡ true }
        ensures result { result ≡ timed_out manner self }
        ensures within { is_within result.0 ≡ true }
    {
        let Progress::Open(reception) = self else {
            return (self, None);
        };
        match manner {
            Manner::Answering { window } if reception.kind == ReceptionKind::Directed => {
                let (progress, packet) = ask(reception, window, TIMEOUT);
                (progress, Some(packet))
            }
            _ => (Progress::Closed, None),
        }
    }

    /// The size of the message whose last packet this is.
    pub(crate) fn last_size(self, packet: &Packet) -> Option<Size>
        requires { is_within self ≡ true }
        ensures { result ≡ last_size self packet.now }
    {
        let Progress::Open(reception) = self else {
            return None;
        };
        let Packet::Dt { number, .. } = *packet else {
            return None;
        };
        let size = reception.size;
        if reception.is_last(number) {
            Some(size)
        } else {
            None
        }
    }

    /// The PGN of the open session or of the message.
    pub(crate) fn pgn(self) -> Option<Pgn>
        ensures { result ≡ pgn_at self }
    {
        match self {
            Progress::Closed => None,
            Progress::Open(reception) => Some(reception.pgn),
            Progress::Complete(pgn) => Some(pgn),
        }
    }
}
