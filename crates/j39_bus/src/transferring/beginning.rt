//! A message is begun.
ghost use Rattle.std.specs.Prelude.{◌≡◌, ◌<◌, ◌≤◌, Some, length, OnOk, OnErr, IfOk};
ghost use Rattle.std.specs.List.{filter, range_with_len, slice_get};
ghost use Rattle.j39_id.specs.Limits.{message_bytes};
ghost use Rattle.j39_network.specs.declared.steps.Step.TheVariants.{Begin};
ghost use Rattle.j39_bus.specs.BusState.{Histories};
ghost use Rattle.j39_bus.specs.Stations.{station_at};
ghost use Rattle.j39_bus.specs.inside.Network.{IsAllowed, IsNetwork, IsReadyFor, IsSameNetwork, KeepsPlan, Steps};
ghost use Rattle.j39_bus.specs.inside.Network.{has_begun, world_in};
ghost use Rattle.j39_bus.specs.inside.KeptMessages.{item_frame};
ghost use Rattle.j39_world.specs.Sent.{sent_of};
ghost use Rattle.j39_world.specs.SentTransfers.{address_of, destination_of};
ghost use Rattle.j39_world.specs.TransferSteps.{begins, sent_to, targets_of};
ghost use Rattle.j39_world.specs.World.{is_other_on};

use super::{destination, source};
use crate::network::Network;
use crate::session::Session;
use crate::transfer_frames::{packet_frame, short_frame};
use crate::wire::{post_each, reserve_each};
use j39_claim::Claimer;
use j39_id::Frame;
use j39_network::To;
use j39_world::{Flow, Wired};
use std::alloc::{AllocError, Global};

/// The frame of what is sent first.
fn frame_of(destination: u8, source: u8, flow: &Flow, item: &Wired) -> Frame
    requires { flow.now.priority ≤ 7 }
    ensures { sent_of result ≡ item_frame destination source flow.now item.now }
{
    match item {
        Wired::Short(short) => short_frame(destination, source, flow, short.bytes()),
        Wired::Packet(packet) => packet_frame(destination, source, packet),
        Wired::Alone(_flow, short) => short_frame(destination, source, flow, short.bytes()),
    }
}

/// The places of the other units that are on, in order.
fn others_on(alloc: Global, claimers: &[Claimer], unit: usize) -> Result<Vec<usize>, AllocError>
    ensures { IfOk result (λ targets. targets.items ≡ filter (is_other_on (station_at claimers.now) unit)
        (range_with_len 0 (length claimers.now))) }
{
    let mut targets = Vec::with_capacity(alloc, claimers.len())?;
    for (place, claimer) in claimers.iter().enumerate() {
        if place != unit && claimer.is_started() {
            targets.push_reserved(place);
        }
    }
    Ok(targets)
}

/// The units that a message of the flow goes to.
fn targets_of(alloc: Global, claimers: &[Claimer], flow: &Flow) -> Result<Vec<usize>, AllocError>
    ensures { IfOk result (λ targets. targets.items ≡ targets_of (length claimers.now)
        (station_at claimers.now) flow.now.sender flow.now.to) }
{
    match flow.to {
        To::All => others_on(alloc, claimers, flow.sender),
        To::One(unit) => Vec::from_slice(alloc, &[unit]),
    }
}

impl Network {
    /// The sender of the flow at this place begins to send these bytes.
    pub(crate) fn begin(&mut self, place: usize, bytes: &Vec<u8>) -> Result<(), AllocError>
        requires network { IsNetwork self.old }
        requires allowed { IsAllowed self.old (Begin place bytes.now) }
        ensures network { IsNetwork self.new }
        ensures plan { KeepsPlan self.old self.new }
        ensures steps { OnOk result (Steps self.old (Begin place bytes.now) self.new) }
        ensures same { OnErr result (IsSameNetwork self.old self.new) }
    {
        let (flow, targets) = self.prepare(place)?;
        self.start(place, &flow, bytes.as_slice(), targets);
        Ok(())
    }

    /// The flow at a place and the units that it goes to, with room for what is sent to them first.
    pub(super) fn prepare(&mut self, place: usize) -> Result<(Flow, Vec<usize>), AllocError>
        requires network { IsNetwork self.old }
        requires place { place < length self.old.flows.items }
        ensures same { IsSameNetwork self.old self.new }
        ensures flow { IfOk result (λ r. slice_get self.new.flows.items place ≡ Some r.0) }
        ensures ready { IfOk result (λ r. IsReadyFor self.new r.0 r.1.items) }
    {
        let flow = self.flows[place];
        self.frames.reserve(1)?;
        let alloc = *self.frames.allocator();
        let targets = targets_of(alloc, self.claimers.as_slice(), &flow)?;
        reserve_each(&mut self.wire, flow.sender, targets.as_slice())?;
        Ok((flow, targets))
    }

    /// The sender of a flow sends these units an item, by one frame.
    pub(super) fn send_by(&mut self, flow: &Flow, targets: &[usize], item: &Wired)
        requires network { IsNetwork self.old }
        requires ready { IsReadyFor self.old flow.now targets.now }
        ensures network { IsNetwork self.new }
        ensures plan { KeepsPlan self.old self.new }
        ensures rest { self.new ≡ record self.old { wire = self.new.wire; frames = self.new.frames } }
        ensures world { (h : Histories) → let w = world_in h self.old
            in world_in h self.new ≡ sent_to w flow.now.sender targets.now item.now
            (item_frame (destination_of w.stations flow.now.to)
            (address_of w.stations flow.now.sender) flow.now item.now) }
    {
        let claimers = self.claimers.as_slice();
        let source = source(claimers, flow.sender);
        let destination = destination(claimers, flow.to);
        let frame = frame_of(destination, source, flow, item);
        post_each(&mut self.wire, flow.sender, targets, item);
        self.frames.push_reserved(frame);
    }

    fn start(&mut self, place: usize, flow: &Flow, bytes: &[u8], targets: Vec<usize>)
        requires network { IsNetwork self.old }
        requires ready { IsReadyFor self.old flow.now targets.items }
        requires bytes { length bytes.now ≤ message_bytes }
        ensures network { IsNetwork self.new }
        ensures plan { KeepsPlan self.old self.new }
        ensures receivers { self.new.receivers ≡ self.old.receivers }
        ensures world { (h : Histories)
            → world_in (has_begun h place flow.now targets.items bytes.now) self.new ≡ begins
            (length self.old.claimers.items) (world_in h self.old) place flow.now bytes.now }
    {
        let (session, item) = Session::begin(place, flow, bytes, targets);
        self.send_by(flow, session.targets(), &item);
        self.sessions[flow.sender] = Some(session);
    }
}
