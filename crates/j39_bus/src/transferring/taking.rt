//! A unit takes what is sent to it.
ghost use Rattle.std.specs.Prelude.{◌≡◌, ℕ, ◌+◌, ◌<◌, ◌≤◌, true, [], ◌∷◌, ◌++◌, drop, length, vec_len, vec_capacity};
ghost use Rattle.std.specs.Prelude.{OnOk, OnErr, IfOk};
ghost use Rattle.j39_network.specs.declared.steps.Step.TheVariants.{Take};
ghost use Rattle.j39_bus.specs.Queued.{KeepsRoom, pair_in, room_at};
ghost use Rattle.j39_tp.specs.Receiver.{is_complete};
ghost use Rattle.j39_tp.specs.Carried.{Carried};
ghost use Rattle.j39_bus.specs.BusState.{Histories};
ghost use Rattle.j39_bus.specs.inside.Network.{HasHeld, IsAllowed, IsNetwork, IsSameNetwork, KeepsPlan, TakesOldest};
ghost use Rattle.j39_bus.specs.inside.Network.{has_taken, world_in, Steps};
ghost use Rattle.j39_bus.specs.inside.KeptMessages.{packet_heard};
ghost use Rattle.j39_world.specs.TransferSteps.{hearing, packets_in, reaction_of, receiver_replies};
ghost use Rattle.j39_world.specs.TransferSteps.{report, sender_replies};
ghost use Rattle.j39_world.specs.World.{changed_pair};

use crate::network::Network;
use crate::report::Report;
use crate::sessions;
use crate::wire::oldest;
use j39_tp::{Heard, Packet, Reaction, known_ranges, receivers_gather_what_they_hear};
use j39_world::Wired;
use std::alloc::AllocError;

/// How many packets a unit answers at most: its receiver one, and its sender one.
const ANSWERS: usize = 2;

/// What a receiver answers.
fn reply_of(heard: &Heard) -> Option<Packet>
    ensures { packets_in result ≡ receiver_replies heard.now }
{
    match heard {
        Heard::Reply(packet) => Some(*packet),
        Heard::CompleteReply(packet) => Some(*packet),
        _ => None,
    }
}

/// What a sender answers.
fn answer_of(reaction: &Reaction) -> Option<Packet>
    ensures { packets_in result ≡ sender_replies reaction.now }
{
    match reaction {
        Reaction::Reply(packet) => Some(*packet),
        _ => None,
    }
}

impl Network {
    /// The second unit takes the oldest that it has not taken yet of the first.
    pub(crate) fn take(&mut self, from: usize, to: usize) -> Result<(), AllocError>
        requires network { IsNetwork self.old }
        requires allowed { IsAllowed self.old (Take from to) }
        ensures network { IsNetwork self.new }
        ensures plan { KeepsPlan self.old self.new }
        ensures steps { OnOk result (Steps self.old (Take from to) self.new) }
        ensures same { OnErr result (IsSameNetwork self.old self.new) }
    {
        let Some(oldest) = oldest(&self.wire, from, to) else {
            unreachable!()
        };
        let item = oldest.copy();
        self.take_item(from, to, &item)
    }

    fn take_item(&mut self, from: usize, to: usize, item: &Wired) -> Result<(), AllocError>
        requires network { IsNetwork self.old }
        requires from { from < length self.old.claimers.items }
        requires to { to < length self.old.claimers.items }
        requires oldest { pair_in self.old.wire.lists from to
            ≡ item.now ∷ drop 1 (pair_in self.old.wire.lists from to) }
        ensures network { IsNetwork self.new }
        ensures plan { KeepsPlan self.old self.new }
        ensures takes { OnOk result (TakesOldest self.old from to self.new) }
        ensures same { OnErr result (IsSameNetwork self.old self.new) }
    {
        match item {
            Wired::Short(short) => {
                let flow = sessions::flow_of(self.sessions.as_slice(), from);
                self.take_one_frame(from, to, flow, short.bytes(), false)
            }
            Wired::Packet(packet) => self.take_packet(from, to, packet),
            Wired::Alone(flow, short) => self.take_one_frame(from, to, *flow, short.bytes(), true),
        }
    }

    // A frame that has all bytes of a message by a flow, or that was sent alone by it.
    fn take_one_frame(
        &mut self,
        from: usize,
        to: usize,
        flow: usize,
        bytes: &[u8],
        alone: bool,
    ) -> Result<(), AllocError>
        requires network { IsNetwork self.old }
        requires from { from < length self.old.claimers.items }
        requires to { to < length self.old.claimers.items }
        ensures network { IsNetwork self.new }
        ensures plan { KeepsPlan self.old self.new }
        ensures receivers { self.new.receivers ≡ self.old.receivers }
        ensures world { OnOk result ((h : Histories) → let w = world_in h self.old in world_in h self.new ≡ record w {
          wire = changed_pair w.wire from to (drop 1 (w.wire from to));
          reports = w.reports ++ record { receiver = to; sender = from; flow = flow; bytes = bytes.now; alone = alone }
              ∷ [];
        }) }
        ensures same { OnErr result (IsSameNetwork self.old self.new) }
    {
        let copy = Vec::from_slice(*self.frames.allocator(), bytes)?;
        self.reports.reserve(1)?;
        drop(self.wire.pop(from, to));
        self.report_by(from, to, flow, copy, alone);
        Ok(())
    }

    fn take_packet(&mut self, from: usize, to: usize, packet: &Packet) -> Result<(), AllocError>
        requires network { IsNetwork self.old }
        requires from { from < length self.old.claimers.items }
        requires to { to < length self.old.claimers.items }
        requires oldest { pair_in self.old.wire.lists from to
            ≡ Wired.Packet packet.now ∷ drop 1 (pair_in self.old.wire.lists from to) }
        ensures network { IsNetwork self.new }
        ensures plan { KeepsPlan self.old self.new }
        ensures takes { OnOk result (TakesOldest self.old from to self.new) }
        ensures same { OnErr result (IsSameNetwork self.old self.new) }
    {
        self.reports.reserve(1)?;
        self.reserve_replies(to, from, ANSWERS)?;
        self.hear_packet(from, to, packet)
    }

    fn hear_packet(&mut self, from: usize, to: usize, packet: &Packet) -> Result<(), AllocError>
        requires network { IsNetwork self.old }
        requires from { from < length self.old.claimers.items }
        requires to { to < length self.old.claimers.items }
        requires oldest { pair_in self.old.wire.lists from to
            ≡ Wired.Packet packet.now ∷ drop 1 (pair_in self.old.wire.lists from to) }
        requires reports { vec_len self.old.reports < vec_capacity self.old.reports }
        requires wire { 2 ≤ room_at self.old.wire to from }
        requires frames { vec_len self.old.frames + 2 ≤ vec_capacity self.old.frames }
        ensures network { IsNetwork self.new }
        ensures plan { KeepsPlan self.old self.new }
        ensures takes { OnOk result (TakesOldest self.old from to self.new) }
        ensures same { OnErr result (IsSameNetwork self.old self.new) }
    {
        let (heard, bytes, reaction) = self.listen(from, to, packet)?;
        if heard.is_complete() {
            self.report(from, to, bytes);
        }
        self.reply(to, from, reply_of(&heard));
        self.reply(to, from, answer_of(&reaction));
        Ok(())
    }

    /// The receiver of the second unit for the first, and its sender, hear the packet that is the oldest on the wire:
    /// what the receiver does, the message that the packet completes, and what the sender does.
    fn listen(
        &mut self,
        from: usize,
        to: usize,
        packet: &Packet,
    ) -> Result<(Heard, Vec<u8>, Reaction), AllocError>
        requires network { IsNetwork self.old }
        requires from { from < length self.old.claimers.items }
        requires to { to < length self.old.claimers.items }
        ensures network { IsNetwork self.new }
        ensures plan { KeepsPlan self.old self.new }
        ensures reports { self.new.reports ≡ self.old.reports }
        ensures frames { self.new.frames ≡ self.old.frames }
        ensures room { KeepsRoom self.old.wire self.new.wire }
        ensures heard { IfOk result (λ r. (h : Histories)
            → r.0 ≡ (hearing self.old.receivers.windows (world_in h self.old) from to packet.now).1) }
        ensures reaction { IfOk result (λ r. (h : Histories)
            → r.2 ≡ reaction_of ((world_in h self.old).sessions to) from packet.now) }
        ensures world { OnOk result ((h : Histories)
            → world_in (has_taken h to from packet.now) self.new ≡ packet_heard self.old.receivers.windows
            (world_in h self.old) from to packet.now) }
        ensures held { OnOk result ((h : Histories) → HasHeld h self.old
            → HasHeld (has_taken h to from packet.now) self.new) }
        ensures complete { IfOk result (λ r. (h : Histories) → HasHeld h self.old → is_complete r.0 ≡ true
            → (pgn : ℕ) × Carried (h.taken to from ++ packet.now ∷ []) (length (h.taken to from)) pgn r.1.items) }
        ensures same { OnErr result (IsSameNetwork self.old self.new) }
    {
        receivers_gather_what_they_hear();
        known_ranges(packet);
        let alloc = *self.frames.allocator();
        let (heard, bytes) = self.receivers.hear(alloc, from, to, packet)?;
        drop(self.wire.pop(from, to));
        let reaction = sessions::hear(&mut self.sessions, to, from, packet);
        Ok((heard, bytes, reaction))
    }

    /// The second unit reports a message of the first.
    fn report(&mut self, from: usize, to: usize, bytes: Vec<u8>)
        requires network { IsNetwork self.old }
        requires from { from < length self.old.claimers.items }
        requires room { vec_len self.old.reports < vec_capacity self.old.reports }
        ensures rest { self.new ≡ record self.old { reports = self.new.reports } }
        ensures world { (h : Histories) → world_in h self.new ≡ record
            (world_in h self.old) {
              reports = (world_in h self.old).reports
                  ++ report (world_in h self.old) from to bytes.items ∷ [];
            } }
    {
        let flow = sessions::flow_of(self.sessions.as_slice(), from);
        self.report_by(from, to, flow, bytes, false);
    }

    /// The second unit reports what the first sent by a flow, in a message or in a frame alone.
    fn report_by(&mut self, from: usize, to: usize, flow: usize, bytes: Vec<u8>, alone: bool)
        requires room { vec_len self.old.reports < vec_capacity self.old.reports }
        ensures rest { self.new ≡ record self.old { reports = self.new.reports } }
        ensures world { (h : Histories) → let w = world_in h self.old in world_in h self.new ≡ record w {
          reports = w.reports
              ++ record { receiver = to; sender = from; flow = flow; bytes = bytes.items; alone = alone } ∷ [];
        } }
    {
        self.reports.push_reserved(Report {
            receiver: to,
            sender: from,
            flow,
            bytes,
            alone,
        });
    }
}
