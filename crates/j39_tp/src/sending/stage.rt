//! Where a session of a sender stands.
use crate::packet::reasons::{CTS_WHILE_SENDING, TIMEOUT};
use crate::{Dest, Outcome, Packet, Phase, Reaction, Size};
use j39_id::Pgn;

/// Where a session of a sender stands, from its announcement on.
#[derive(Clone, Copy)]
pub enum Stage {
    /// The data packets from `next` to `last` are to be sent.
    Sending { next: u8, last: u8 },
    /// A CTS, an acknowledgement or an Abort has to come.
    Waiting,
    /// It ended.
    Resting(Outcome),
}

impl Stage {
    ghost use Rattle.std.specs.Prelude.{◌≡◌};
    ghost use Rattle.j39_tp.specs.declared.sending.outcome.Outcome.TheVariants.{GaveUp};
    ghost use Rattle.j39_tp.specs.Sender.{begun, after_packet, cleared, ended, stage_hears, after_timeout};
    ghost use Rattle.j39_tp.specs.Sender.{timeout_packet, phase_of, outcome_of};

    /// Where a session stands once its message was announced.
    pub(crate) fn begin(dest: Dest, size: Size) -> Self
        ensures { result ≡ begun dest size }
    {
        match dest {
            Dest::All => Stage::Sending {
                next: 1,
                last: size.packets(),
            },
            Dest::One => Stage::Waiting,
        }
    }

    /// Where a session stands once its next data packet was sent.
    pub(crate) fn advance(self, dest: Dest) -> Self
        ensures { result ≡ after_packet dest self }
    {
        match self {
            Stage::Sending { next, last } if next < last => Stage::Sending {
                next: next + 1,
                last,
            },
            Stage::Sending { .. } => match dest {
                Dest::All => Stage::Resting(Outcome::Sent),
                Dest::One => Stage::Waiting,
            },
            _ => self,
        }
    }

    // A CTS of the session's PGN.
    fn clear(self, pgn: Pgn, packets: u8, count: u8, first: u8) -> (Self, Reaction)
        ensures { result ≡ cleared pgn packets count first self }
    {
        match self {
            Stage::Sending { .. } => (
                Stage::Resting(Outcome::Aborted(CTS_WHILE_SENDING)),
                Reaction::Reply(Packet::Abort {
                    reason: CTS_WHILE_SENDING,
                    pgn,
                }),
            ),
            Stage::Waiting if count > 0 && 1 <= first && first <= packets => (
                Stage::Sending {
                    next: first,
                    last: first.saturating_add(count - 1).min(packets),
                },
                Reaction::Go,
            ),
            _ => (self, Reaction::Nothing),
        }
    }

    // An end of the session, unless it has one.
    fn end(self, outcome: Outcome) -> (Self, Reaction)
        ensures { result ≡ ended outcome self }
    {
        match self {
            Stage::Resting(_) => (self, Reaction::Nothing),
            _ => (Stage::Resting(outcome), Reaction::Ended),
        }
    }

    /// Where a session stands once it heard a packet, and what it does.
    pub(crate) fn hear(self, dest: Dest, pgn: Pgn, size: Size, packet: &Packet) -> (Self, Reaction)
        ensures { result ≡ stage_hears dest pgn size self packet.now }
    {
        if dest == Dest::All {
            return (self, Reaction::Nothing);
        }
        match *packet {
            Packet::Cts {
                count,
                first,
                pgn: named,
            } if named == pgn => { self.clear(pgn, size.packets(), count, first) }
            Packet::EndAck {
                size: received,
                pgn: named,
            } if named == pgn && received == size => { self.end(Outcome::Acked) }
            Packet::Abort { reason, pgn: named } if named == pgn => {
                self.end(Outcome::Aborted(reason))
            }
            _ => (self, Reaction::Nothing),
        }
    }

    /// Where a session stands once nothing was heard in time, and what it sends.
    pub(crate) fn time_out(self, pgn: Pgn) -> (Self, Option<Packet>)
        ensures stage { result.0 ≡ after_timeout self }
        ensures packet { result.1 ≡ timeout_packet pgn self }
    {
        match self {
            Stage::Waiting => (
                Stage::Resting(Outcome::GaveUp),
                Some(Packet::Abort {
                    reason: TIMEOUT,
                    pgn,
                }),
            ),
            _ => (self, None),
        }
    }

    /// Where a session stands that is given up without a packet, unless it has ended.
    pub(crate) fn give_up(self) -> Self
        ensures { result ≡ (ended GaveUp self).0 }
    {
        match self {
            Stage::Resting(_) => self,
            _ => Stage::Resting(Outcome::GaveUp),
        }
    }

    /// The phase of a sender whose session stands there.
    pub(crate) fn phase(self) -> Phase
        ensures { result ≡ phase_of self }
    {
        match self {
            Stage::Sending { .. } => Phase::Sending,
            Stage::Waiting => Phase::Waiting,
            Stage::Resting(_) => Phase::Resting,
        }
    }

    /// How it ended, if it did.
    pub(crate) fn outcome(self) -> Option<Outcome>
        ensures { result ≡ outcome_of self }
    {
        match self {
            Stage::Resting(outcome) => Some(outcome),
            _ => None,
        }
    }
}
