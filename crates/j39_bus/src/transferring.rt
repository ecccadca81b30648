//! The steps of transfers (SAE J1939-21, transport protocol functions), and what they have in common.
ghost use Rattle.std.specs.Prelude.{◌≡◌, ◌+◌, ◌<◌, ◌≤◌, Some, length, vec_len, vec_capacity, OnOk};
ghost use Rattle.j39_bus.specs.BusState.{Histories, session_at};
ghost use Rattle.j39_bus.specs.Stations.{station_at};
ghost use Rattle.j39_bus.specs.inside.Network.{IsNetwork, IsSameNetwork, KeepsPlan, world_in};
ghost use Rattle.j39_world.specs.SentTransfers.{address_of, destination_of};
ghost use Rattle.j39_bus.specs.inside.KeptMessages.{HasRoomAlong, GoesToUnits};
ghost use Rattle.j39_bus.specs.Queued.{room_at};
ghost use Rattle.j39_world.specs.Transfers.{Outgoing};
ghost use Rattle.j39_world.specs.TransferSteps.{packets_in, replied, sent_to_receivers};

mod beginning;
mod emitting;
mod late_receiving;
mod late_sending;
mod losing;
mod resting;
mod sending;
mod taking;

use crate::claim_frames::source_of;
use crate::network::Network;
use crate::transfer_frames::packet_frame;
use crate::wire::{post_each, reserve_each};
use j39_claim::Claimer;
use j39_id::addresses::GLOBAL_ADDRESS;
use j39_network::To;
use j39_tp::Packet;
use j39_world::Wired;
use std::alloc::AllocError;

/// The address that a unit sends from.
fn source(claimers: &[Claimer], unit: usize) -> u8
    requires { unit < length claimers.now }
    ensures { result ≡ address_of (station_at claimers.now) unit }
{
    source_of(claimers[unit].address())
}

/// The address that a message goes to.
fn destination(claimers: &[Claimer], to: To) -> u8
    requires { GoesToUnits (length claimers.now) to }
    ensures { result ≡ destination_of (station_at claimers.now) to }
{
    match to {
        To::All => GLOBAL_ADDRESS,
        To::One(unit) => source(claimers, unit),
    }
}

impl Network {
    /// Makes room for a packet to those that the message of a unit goes to.
    fn reserve_along(&mut self, unit: usize) -> Result<(), AllocError>
        requires network { IsNetwork self.old }
        requires unit { unit < length self.old.claimers.items }
        ensures same { IsSameNetwork self.old self.new }
        ensures wire { OnOk result (HasRoomAlong self.new.wire unit (session_at self.new.sessions.items unit)) }
        ensures frames { OnOk result (vec_len self.new.frames < vec_capacity self.new.frames) }
    {
        if let Some(session) = &self.sessions[unit] {
            reserve_each(&mut self.wire, unit, session.targets())?;
        }
        self.frames.reserve(1)
    }

    /// A unit sends a packet to those that its message goes to.
    fn send_along(&mut self, unit: usize, packet: &Packet)
        requires network { IsNetwork self.old }
        requires unit { unit < length self.old.claimers.items }
        requires wire { HasRoomAlong self.old.wire unit (session_at self.old.sessions.items unit) }
        requires frames { vec_len self.old.frames < vec_capacity self.old.frames }
        ensures network { IsNetwork self.new }
        ensures plan { KeepsPlan self.old self.new }
        ensures rest { self.new ≡ record self.old { wire = self.new.wire; frames = self.new.frames } }
        ensures world { (h : Histories) (s : Outgoing) → session_at self.old.sessions.items unit ≡ Some s
            → world_in h self.new ≡ sent_to_receivers (world_in h self.old) unit s packet.now }
    {
        if let Some(session) = &self.sessions[unit] {
            let claimers = self.claimers.as_slice();
            let to = destination(claimers, session.to());
            let frame = packet_frame(to, source(claimers, unit), packet);
            let item = Wired::Packet(*packet);
            post_each(&mut self.wire, unit, session.targets(), &item);
            self.frames.push_reserved(frame);
        }
    }

    /// Makes room for so many answers of a unit to another.
    fn reserve_replies(&mut self, from: usize, to: usize, packets: usize) -> Result<(), AllocError>
        requires network { IsNetwork self.old }
        requires from { from < length self.old.claimers.items }
        requires to { to < length self.old.claimers.items }
        requires packets { packets ≤ 2 }
        ensures same { IsSameNetwork self.old self.new }
        ensures wire { OnOk result (packets ≤ room_at self.new.wire from to) }
        ensures frames { OnOk result (vec_len self.new.frames + packets ≤ vec_capacity self.new.frames) }
        ensures reports { self.new.reports ≡ self.old.reports }
    {
        self.wire.reserve(from, to, packets)?;
        self.frames.reserve(packets)
    }

    /// A unit answers another by a packet, if there is one.
    fn reply(&mut self, from: usize, to: usize, packet: Option<Packet>)
        requires network { IsNetwork self.old }
        requires from { from < length self.old.claimers.items }
        requires to { to < length self.old.claimers.items }
        requires wire { length (packets_in packet) ≤ room_at self.old.wire from to }
        requires frames { vec_len self.old.frames + length (packets_in packet) ≤ vec_capacity self.old.frames }
        ensures network { IsNetwork self.new }
        ensures plan { KeepsPlan self.old self.new }
        ensures rest { self.new ≡ record self.old { wire = self.new.wire; frames = self.new.frames } }
        ensures wire { room_at self.old.wire from to ≤ room_at self.new.wire from to + length (packets_in packet) }
        ensures frames { vec_capacity self.old.frames ≤ vec_capacity self.new.frames }
        ensures frames_len { vec_len self.new.frames ≡ vec_len self.old.frames + length (packets_in packet) }
        ensures world { (h : Histories)
            → world_in h self.new ≡ replied (world_in h self.old) from to (packets_in packet) }
    {
        if let Some(packet) = packet {
            let claimers = self.claimers.as_slice();
            let frame = packet_frame(source(claimers, to), source(claimers, from), &packet);
            self.wire.post(from, to, Wired::Packet(packet));
            self.frames.push_reserved(frame);
        }
    }
}
