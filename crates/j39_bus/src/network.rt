//! What the units are, what they send one another, and the frames that they sent.
ghost use Rattle.std.specs.Prelude.{◌≡◌, ℕ, ◌<◌, ◌≤◌, ◌+◌, [], ◌∷◌, length, vec_len, vec_capacity, OnOk};
ghost use Rattle.j39_bus.specs.Queued.{IsTable};
ghost use Rattle.j39_world.specs.ClaimSteps.{send_to_others};
ghost use Rattle.j39_bus.specs.inside.Claims.{HasRoomForOthers};

use crate::claim_frames::frame_of;
use crate::claims::{post_to_others, reserve_for_others};
use crate::queues::Queues;
use crate::receivers::Receivers;
use crate::report::Report;
use crate::session::Session;
use j39_claim::{Claimer, Item};
use j39_id::Frame;
use j39_world::{Flow, Wired};
use std::alloc::AllocError;

/// The units of a plan by their places, all that is undelivered of claims, whether the plan's bus is live, the flows,
/// the message that each unit sends, what is not taken of it, the receivers, and all messages received and all frames
/// sent, each in order.
#[derive(Drop)]
pub(crate) struct Network {
    pub(crate) claimers: Vec<Claimer>,
    pub(crate) claims: Queues<Item>,
    pub(crate) live: bool,
    pub(crate) flows: Vec<Flow>,
    pub(crate) sessions: Vec<Option<Session>>,
    pub(crate) wire: Queues<Wired>,
    pub(crate) receivers: Receivers,
    pub(crate) reports: Vec<Report>,
    pub(crate) frames: Vec<Frame>,
}

impl Network {
    ghost use Rattle.j39_bus.specs.BusState.{Histories};
    ghost use Rattle.j39_bus.specs.inside.Network.{IsSameNetwork, planned_units, world_in};

    /// Makes room for so many items from a unit to each other one that is on.
    pub(crate) fn reserve(&mut self, from: usize, items: usize) -> Result<(), AllocError>
        requires from { from < length self.old.claimers.items }
        requires table { IsTable (length self.old.claimers.items) self.old.claims.lists }
        ensures same { IsSameNetwork self.old self.new }
        ensures room { OnOk result (HasRoomForOthers self.new.claims self.new.claimers.items from items) }
        ensures frames { OnOk result (vec_len self.new.frames + items ≤ vec_capacity self.new.frames) }
    {
        reserve_for_others(&mut self.claims, self.claimers.as_slice(), from, items)?;
        self.frames.reserve(items)
    }

    /// A unit sends an item to all others.
    pub(crate) fn send_to_others(&mut self, from: usize, item: Item)
        requires from { from < length self.old.claimers.items }
        requires table { IsTable (length self.old.claimers.items) self.old.claims.lists }
        requires room { HasRoomForOthers self.old.claims self.old.claimers.items from 1 }
        requires frames { vec_len self.old.frames < vec_capacity self.old.frames }
        ensures claimers { self.new.claimers ≡ self.old.claimers }
        ensures rest { self.new ≡ record self.old { claims = self.new.claims; frames = self.new.frames } }
        ensures world { (h : Histories)
            → world_in h self.new
            ≡ send_to_others (planned_units self.old.claimers.items) (world_in h self.old) from (item ∷ []) }
        ensures table { IsTable (length self.old.claimers.items) self.new.claims.lists }
        ensures room { (more : ℕ) → HasRoomForOthers self.old.claims self.old.claimers.items from (1 + more)
            → HasRoomForOthers self.new.claims self.old.claimers.items from more }
        ensures frames_len { vec_len self.new.frames ≡ vec_len self.old.frames + 1 }
        ensures frames_room { vec_capacity self.old.frames ≤ vec_capacity self.new.frames }
    {
        let claimer = &self.claimers[from];
        let frame = frame_of(claimer.name(), claimer.address(), &item);
        post_to_others(&mut self.claims, self.claimers.as_slice(), from, &item);
        self.frames.push_reserved(frame);
    }
}
