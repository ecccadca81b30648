//! Senders of messages.
ghost use Rattle.std.specs.Prelude.{◌≡◌, ◌↔◌, length, IsSome, IsErr, IfOk, IfErr, OnOk, OnErr};

use crate::{Busy, Dest, Message, Outcome, Packet, Phase, Reaction, Transfer};
use std::marker::Model;

/// A sender of one message at a time (SAE J1939-21, transport protocol).
#[derive(Drop)]
pub struct Sender {
    transfer: Option<Transfer>,
}

impl Model for Sender {
    ghost use Rattle.std.specs.Prelude.{Option};
    ghost use Rattle.j39_tp.specs.Sender.{TransferParts};

    ghost Value = { Option TransferParts };

    ghost view = { λ s. s.transfer };
}

impl Sender {
    ghost use Rattle.j39_tp.specs.Sender.{announced, announcement, packet_next, answer, late_packet, is_resting};
    ghost use Rattle.j39_tp.specs.Sender.{outcome_seen, phase_seen};
    ghost use Rattle.j39_tp.specs.Sender.{sender_after_sending, sender_after_hearing, sender_after_timeout};
    ghost use Rattle.j39_tp.specs.Sender.{sender_after_rest};

    /// An idle sender.
    pub fn new() -> Self
        ensures { result ≡ None }
    {
        Sender { transfer: None }
    }

    /// Takes a message and gives its announcement; a sender that isn't idle hands it back.
    pub fn begin(&mut self, message: Message, dest: Dest) -> Result<Packet, Busy>
        ensures announced { IfOk result (λ p. p ≡ announcement dest message.pgn (length message.bytes)) }
        ensures begun { OnOk result (self.new ≡ Some (announced message dest)) }
        ensures busy { IsErr result ↔ IsSome self.old }
        ensures returned { IfErr result (λ b. b.message ≡ message) }
        ensures unchanged { OnErr result (self.new ≡ self.old) }
    {
        if self.transfer.is_some() {
            return Err(Busy { message });
        }
        let (transfer, announcement) = Transfer::begin(message, dest);
        self.transfer = Some(transfer);
        Ok(announcement)
    }

    /// The next data packet, if one may be sent now.
    pub fn next_packet(&mut self) -> Option<Packet>
        ensures packet { result ≡ packet_next self.old }
        ensures after { self.new ≡ sender_after_sending self.old }
    {
        self.transfer.as_mut()?.next_packet()
    }

    /// What it does with a packet of its receiver.
    pub fn hear(&mut self, packet: &Packet) -> Reaction
        ensures answer { result ≡ answer self.old packet.now }
        ensures after { self.new ≡ sender_after_hearing self.old packet.now }
    {
        match &mut self.transfer {
            Some(transfer) => transfer.hear(packet),
            None => Reaction::Nothing,
        }
    }

    /// What it sends where nothing was heard in time.
    pub fn late(&mut self) -> Option<Packet>
        ensures packet { result ≡ late_packet self.old }
        ensures after { self.new ≡ sender_after_timeout self.old }
    {
        self.transfer.as_mut()?.late()
    }

    /// Makes a resting sender idle, and answers whether it rested.
    pub fn rest(&mut self) -> bool
        ensures rested { result ≡ is_resting self.old }
        ensures after { self.new ≡ sender_after_rest self.old }
    {
        if self.phase() != Phase::Resting {
            return false;
        }
        self.transfer = None;
        true
    }

    /// How the message ended, while the sender rests.
    pub fn outcome(&self) -> Option<Outcome>
        ensures { result ≡ outcome_seen self.now }
    {
        self.transfer.as_ref()?.outcome()
    }

    /// What the sender is doing.
    pub fn phase(&self) -> Phase
        ensures { result ≡ phase_seen self.now }
    {
        match &self.transfer {
            Some(transfer) => transfer.phase(),
            None => Phase::Idle,
        }
    }
}
