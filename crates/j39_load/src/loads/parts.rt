//! All frames of a plan, part by part, and where they stand.
ghost use Rattle.std.specs.Prelude.{◌≡◌, ◌<◌, ◌≤◌, ◌++◌, All, None, length, slice_index_or, IfOk, OnOk};
ghost use Rattle.j39_load.specs.Asked.{announcements_of_unit, frames_asked, frames_of_flow, frames_of_request};
ghost use Rattle.j39_load.specs.Asked.{packets_of_unit, singles_of_flow, wanting};
ghost use Rattle.j39_load.specs.AskedLoads.{asked_in};
ghost use Rattle.j39_load.specs.Delays.{announcements_place, packets_place};
ghost use Rattle.j39_load.specs.SoundLoads.{AreSound, AreSoundIfAny, IsSoundBroadcast, IsSoundIfAsked, IsSoundIfKnown};
ghost use Rattle.j39_load.specs.SoundLoads.{IsSoundIfSent};
ghost use Rattle.j39_load.specs.inside.FrameParts.{frames_in, places_in};

use crate::frames::{Broadcast, FlowFrames, IDENT_END, Messages};
use crate::loads::Loads;
use crate::loads::flow_load::FlowLoad;
use crate::loads::request_load::RequestLoad;
use crate::loads::unit_load::UnitLoad;
use j39_timing::Stream;
use std::alloc::{AllocError, Global};

/// A part of the list of all frames.
#[derive(Clone, Copy)]
pub(crate) enum FramePart {
    /// Of each flow the frames that are its own, or what it wants of its unit's.
    Flows,
    /// Of each flow that has long messages too the single frames.
    Singles,
    /// Of each unit the packets of its broadcasts.
    Packets,
    /// Of each unit their announcements.
    Announcements,
    /// The frames of each request.
    Requests,
}

// What stands in place of frames of its own of a flow with such messages.
fn wanting(broadcast: &Broadcast) -> FlowFrames
    requires { IsSoundBroadcast broadcast.now }
    ensures frames { result ≡ wanting broadcast.now }
    ensures fit { AreSound result }
{
    FlowFrames {
        stream: Stream {
            frames: 0,
            period: 1,
            bits: 0,
            jitter: 0,
            wanted: None,
        },
        least_ident: IDENT_END,
        greatest_ident: IDENT_END,
        any_sender: None,
        any_receiver: None,
        last_ident: IDENT_END,
        twin_ident: None,
        want: Some(*broadcast),
    }
}

// The frames that are a flow's own, or what it wants of its unit's.
fn frames_of_flow(load: &Option<FlowLoad>) -> Option<FlowFrames>
    requires { IsSoundIfKnown load.now }
    ensures frames { result ≡ frames_of_flow load.now }
    ensures fit { AreSoundIfAny result }
{
    let Some(load) = load else {
        return None;
    };
    match &load.messages {
        Messages::Short(frames) => Some(*frames),
        Messages::ToOne(frames) => Some(*frames),
        Messages::ToAll(broadcast) => Some(wanting(broadcast)),
    }
}

// The single frames of a flow that has long messages too.
fn singles_of_flow(load: &Option<FlowLoad>) -> Option<FlowFrames>
    requires { IsSoundIfKnown load.now }
    ensures frames { result ≡ singles_of_flow load.now }
    ensures fit { AreSoundIfAny result }
{
    match load {
        Some(load) => load.singles,
        None => None,
    }
}

// The packets of a unit's broadcasts.
fn packets_of_unit(load: &Option<UnitLoad>) -> Option<FlowFrames>
    requires { IsSoundIfSent load.now }
    ensures frames { result ≡ packets_of_unit load.now }
    ensures fit { AreSoundIfAny result }
{
    match load {
        Some(load) => Some(load.packets),
        None => None,
    }
}

// Their announcements.
fn announcements_of_unit(load: &Option<UnitLoad>) -> Option<FlowFrames>
    requires { IsSoundIfSent load.now }
    ensures frames { result ≡ announcements_of_unit load.now }
    ensures fit { AreSoundIfAny result }
{
    match load {
        Some(load) => Some(load.announcements),
        None => None,
    }
}

// The frames of a request.
fn frames_of_request(load: &Option<RequestLoad>) -> Option<FlowFrames>
    requires { IsSoundIfAsked load.now }
    ensures frames { result ≡ frames_of_request load.now }
    ensures fit { AreSoundIfAny result }
{
    match load {
        Some(load) => Some(load.frames),
        None => None,
    }
}

impl Loads {
    // How many places a part has.
    fn places_in(&self, part: FramePart) -> usize
        ensures { result ≡ places_in part (asked_in self.now) }
    {
        match part {
            FramePart::Flows => self.flows.len(),
            FramePart::Singles => self.flows.len(),
            FramePart::Packets => self.units.len(),
            FramePart::Announcements => self.units.len(),
            FramePart::Requests => self.requests.len(),
        }
    }

    // What stands at a place of a part.
    fn frames_at(&self, part: FramePart, place: usize) -> Option<FlowFrames>
        requires { place < places_in part (asked_in self.now) }
        ensures frames { result ≡ slice_index_or (frames_in part (asked_in self.now)) place None }
        ensures fit { AreSoundIfAny result }
    {
        match part {
            FramePart::Flows => frames_of_flow(&self.flows[place]),
            FramePart::Singles => singles_of_flow(&self.flows[place]),
            FramePart::Packets => packets_of_unit(&self.units[place]),
            FramePart::Announcements => announcements_of_unit(&self.units[place]),
            FramePart::Requests => frames_of_request(&self.requests[place]),
        }
    }

    // Adds what stands at the places of a part.
    fn add_part(&self, all: &mut Vec<Option<FlowFrames>>, part: FramePart) -> Result<(), AllocError>
        requires { All AreSoundIfAny all.old.items }
        ensures frames { OnOk result (all.new.items ≡ all.old.items ++ frames_in part (asked_in self.now)) }
        ensures fit { OnOk result (All AreSoundIfAny all.new.items) }
    {
        for place in 0..self.places_in(part) {
            all.push(self.frames_at(part, place))?;
        }
        Ok(())
    }

    /// All frames that come of what the flows, the units and the requests ask.
    pub(crate) fn all_frames(&self, alloc: Global) -> Result<Vec<Option<FlowFrames>>, AllocError>
        ensures frames { IfOk result (λ all. all.items ≡ frames_asked (asked_in self.now)) }
        ensures fit { IfOk result (λ all. All AreSoundIfAny all.items) }
        ensures few { IfOk result (λ all. length all.items ≤ 2000) }
    {
        let count = 2 * self.flows.len() + 2 * self.units.len() + self.requests.len();
        let mut all = Vec::with_capacity(alloc, count)?;
        self.add_part(&mut all, FramePart::Flows)?;
        self.add_part(&mut all, FramePart::Singles)?;
        self.add_part(&mut all, FramePart::Packets)?;
        self.add_part(&mut all, FramePart::Announcements)?;
        self.add_part(&mut all, FramePart::Requests)?;
        Ok(all)
    }

    /// Where the packets of the broadcasts of the unit at a place stand among them.
    pub(crate) fn packets_place(&self, unit: usize) -> usize
        requires { unit < length self.now.units.items }
        ensures { result ≡ packets_place (asked_in self.now) unit }
    {
        2 * self.flows.len() + unit
    }

    /// And their announcements.
    pub(crate) fn announcements_place(&self, unit: usize) -> usize
        requires { unit < length self.now.units.items }
        ensures { result ≡ announcements_place (asked_in self.now) unit }
    {
        2 * self.flows.len() + (self.units.len() + unit)
    }
}
