//! A unit is switched off, also in the midst of messages.
ghost use Rattle.j39_network.specs.declared.steps.Step.TheVariants.{Down};
ghost use Rattle.j39_bus.specs.inside.Network.{IsAllowed, IsNetwork, KeepsPlan, Steps};

use crate::network::Network;
use crate::sessions;

impl Network {
    /// The unit is switched off. What was sent to it is gone, and its message with all that it sent of messages; of
    /// what it sent of addresses others still hear. Others send it nothing more: a message to it alone is given up.
    pub(crate) fn down(&mut self, unit: usize)
        requires network { IsNetwork self.old }
        requires allowed { IsAllowed self.old (Down unit) }
        ensures network { IsNetwork self.new }
        ensures plan { KeepsPlan self.old self.new }
        ensures steps { Steps self.old (Down unit) self.new }
    {
        self.claims.clear_to(unit);
        self.wire.clear_of(unit);
        sessions::switch_off(&mut self.sessions, unit);
        self.receivers.switch_off(unit);
        self.claimers[unit].stop();
    }
}
