//! Transfers of messages.
ghost use Rattle.std.specs.Prelude.{◌≡◌, length};
ghost use Rattle.j39_tp.specs.declared.sending.outcome.Outcome.TheVariants.{GaveUp};
ghost use Rattle.j39_tp.specs.Sender.{after_packet, after_timeout, announced, announcement, data_next, ended};
ghost use Rattle.j39_tp.specs.Sender.{outcome_of, phase_of, timeout_packet, transfer_hears};

use super::stage::Stage;
use crate::packet::NO_LIMIT;
use crate::{Dest, Message, Outcome, Packet, Phase, Reaction};
use j39_id::Pgn;
use std::marker::Model;

/// A message that is being sent, from its announcement on (SAE J1939-21, transport protocol functions). There is no
/// transfer without a message: a `Sender` has one or none.
#[derive(Drop)]
pub struct Transfer {
    message: Message,
    dest: Dest,
    stage: Stage,
}

impl Model for Transfer {
    ghost use Rattle.j39_tp.specs.Sender.{TransferParts};

    ghost Value = { TransferParts };

    ghost view = { λ t. record { message = t.message; dest = t.dest; stage = t.stage } };
}

impl Transfer {
    /// The transfer of a message, and its announcement, which is sent first.
    pub fn begin(message: Message, dest: Dest) -> (Self, Packet)
        ensures transfer { result.0 ≡ announced message dest }
        ensures announcement { result.1 ≡ announcement dest message.pgn (length message.bytes) }
    {
        let (size, pgn) = (message.size(), message.pgn());
        let announcement = match dest {
            Dest::All => Packet::Bam { size, pgn },
            Dest::One => Packet::Rts {
                size,
                limit: NO_LIMIT,
                pgn,
            },
        };
        let stage = Stage::begin(dest, size);
        let transfer = Transfer {
            message,
            dest,
            stage,
        };
        (transfer, announcement)
    }

    /// The PGN of its message.
    pub fn pgn(&self) -> Pgn
        ensures { result ≡ self.now.message.pgn }
    {
        self.message.pgn()
    }

    /// The next data packet, if one may be sent now.
    pub fn next_packet(&mut self) -> Option<Packet>
        ensures packet { result ≡ data_next self.old.message.bytes self.old.stage }
        ensures after { self.new ≡ record self.old { stage = after_packet self.old.dest self.old.stage } }
    {
        let Stage::Sending { next, .. } = self.stage else {
            return None;
        };
        self.stage = self.stage.advance(self.dest);
        Some(Packet::Dt {
            number: next,
            chunk: self.message.chunk(next),
        })
    }

    /// What it does with a packet of its receiver.
    pub fn hear(&mut self, packet: &Packet) -> Reaction
        ensures answer { result ≡ (transfer_hears self.old packet.now).1 }
        ensures after { self.new ≡ record self.old { stage = (transfer_hears self.old packet.now).0 } }
    {
        let (pgn, size) = (self.message.pgn(), self.message.size());
        let (stage, reaction) = self.stage.hear(self.dest, pgn, size, packet);
        self.stage = stage;
        reaction
    }

    /// What is sent where nothing was heard in time.
    pub fn late(&mut self) -> Option<Packet>
        ensures packet { result ≡ timeout_packet self.old.message.pgn self.old.stage }
        ensures after { self.new ≡ record self.old { stage = after_timeout self.old.stage } }
    {
        let (stage, packet) = self.stage.time_out(self.message.pgn());
        self.stage = stage;
        packet
    }

    /// Gives its message up without a packet, unless it has ended: its receiver is off.
    pub fn give_up(&mut self)
        ensures { self.new ≡ record self.old { stage = (ended GaveUp self.old.stage).0 } }
    {
        self.stage = self.stage.give_up();
    }

    /// How it ended, if it did.
    pub fn outcome(&self) -> Option<Outcome>
        ensures { result ≡ outcome_of self.now.stage }
    {
        self.stage.outcome()
    }

    /// What its sender is doing; it is never idle.
    pub fn phase(&self) -> Phase
        ensures { result ≡ phase_of self.now.stage }
    {
        self.stage.phase()
    }
}
