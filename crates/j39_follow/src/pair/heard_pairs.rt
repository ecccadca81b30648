//! What each pair of addresses heard, in order and in whatever order.
ghost use Rattle.std.specs.Prelude.{◌≡◌, ◌<◌, [], ℕ, None, OnOk, IfOk, if◌then◌else◌, Some as ASome};
ghost use Rattle.j39_log.specs.LogPairs.{is_heard_by};
ghost use Rattle.j39_log.specs.PairListeners.{completed_group, is_of_pair};
ghost use Rattle.j39_tp.specs.Receiver.{fresh, receives};
ghost use Rattle.j39_tp.specs.declared.receiving.manner.Manner.TheVariants.{Listening};
ghost use Rattle.j39_follow.specs.Received.{way_packet};
ghost use Rattle.j39_follow.specs.inside.Collecting.{CollectsOn};
ghost use Rattle.j39_follow.specs.inside.Hearing.{listener_between, kept_between};

use crate::pair::collections::Collections;
use j39_id::{Ident, Pgn};
use j39_log::{Listeners, listen};
use j39_tp::Packet;
use std::alloc::{AllocError, Global};

/// What each pair of addresses heard: a listener has the packets of a message in order, a collection those of a message
/// to one unit in whatever order.
#[derive(Drop)]
pub(crate) struct HeardPairs {
    pub listeners: Listeners,
    pub collections: Collections,
}

impl HeardPairs {
    pub fn new(alloc: Global) -> Self
        ensures listeners { result.listeners.rows.items ≡ [] }
        ensures collections { (source destination : ℕ) → kept_between result source destination ≡ None }
    {
        HeardPairs {
            listeners: Listeners::new(alloc),
            collections: Collections::new(alloc),
        }
    }

    /// The group of the message that the packet completes in order of the pair that it is sent from and to.
    pub fn hear(&mut self, ident: Ident, packet: &Packet) -> Result<Option<Pgn>, AllocError>
        ensures heard { OnOk result ((source destination : ℕ) → source < 256 → destination < 256
            → listener_between self.new source destination
            ≡ (if is_heard_by source destination ident packet.now
            then receives (listener_between self.old source destination) packet.now
            else listener_between self.old source destination)) }
        ensures collected { OnOk result ((source destination : ℕ) → source < 256 → destination < 256
            → CollectsOn (kept_between self.old source destination) (kept_between self.new source destination)
            (way_packet source destination ident (ASome packet.now))) }
        ensures group { IfOk result (λ group. group
            ≡ completed_group (listener_between self.old ident.sa ident.ps) packet.now) }
    {
        self.collections.hear(ident, packet)?;
        listen(&mut self.listeners, ident, packet)
    }

    /// Each pair of this address begins anew.
    pub fn forget(&mut self, address: u8)
        ensures listeners { (s d : ℕ) → s < 256 → d < 256 → listener_between self.new s d
            ≡ (if is_of_pair address s d then fresh Listening else listener_between self.old s d) }
        ensures collections { (s d : ℕ) → s < 256 → d < 256 → kept_between self.new s d
            ≡ (if is_of_pair address s d then None else kept_between self.old s d) }
    {
        self.listeners.forget(address);
        self.collections.forget(address);
    }
}
