//! A sender rests.
ghost use Rattle.std.specs.Prelude.{◌≡◌, ◌<◌, length};
ghost use Rattle.j39_network.specs.declared.steps.Step.TheVariants.{Rest};
ghost use Rattle.j39_bus.specs.BusState.{nowhere};
ghost use Rattle.j39_bus.specs.inside.Network.{IsAllowed, IsNetwork, KeepsPlan, world_in, Steps};
ghost use Rattle.j39_world.specs.Resting.{can_rest, is_over_with};

use crate::network::Network;
use crate::sessions;
use crate::wire::{none_of_receiver, none_of_sender};

impl Network {
    /// The message of the unit has ended, and it may begin another one.
    pub(crate) fn rest(&mut self, unit: usize)
        requires network { IsNetwork self.old }
        requires allowed { IsAllowed self.old (Rest unit) }
        ensures network { IsNetwork self.new }
        ensures plan { KeepsPlan self.old self.new }
        ensures steps { Steps self.old (Rest unit) self.new }
    {
        self.sessions[unit] = None;
    }

    /// Whether the message of the unit has ended, and nothing of it is open or undelivered.
    pub(crate) fn can_rest(&self, unit: usize) -> bool
        requires network { IsNetwork self.now }
        requires unit { unit < length self.now.claimers.items }
        ensures { result ≡ can_rest (length self.now.claimers.items) (world_in nowhere self.now) unit }
    {
        if sessions::outcome(self.sessions.as_slice(), unit).is_none() {
            return false;
        }
        for other in 0..self.claimers.len() {
            if !self.is_over_with(unit, other) {
                return false;
            }
        }
        true
    }

    /// Whether nothing of a message of the first unit to the second is open or undelivered.
    fn is_over_with(&self, unit: usize, other: usize) -> bool
        requires network { IsNetwork self.now }
        requires unit { unit < length self.now.claimers.items }
        requires other { other < length self.now.claimers.items }
        ensures { result ≡ is_over_with (world_in nowhere self.now) unit other }
    {
        !self.receivers.is_open(unit, other)
            && none_of_sender(self.wire.between(unit, other))
            && none_of_receiver(self.wire.between(other, unit))
    }
}
