//! What is sent is lost.
ghost use Rattle.j39_network.specs.declared.steps.Step.TheVariants.{Lose};
ghost use Rattle.j39_bus.specs.inside.Network.{IsAllowed, IsNetwork, KeepsPlan, Steps};

use crate::network::Network;

impl Network {
    /// The oldest that the second unit has not taken yet of the first is lost.
    pub(crate) fn lose(&mut self, from: usize, to: usize)
        requires network { IsNetwork self.old }
        requires allowed { IsAllowed self.old (Lose from to) }
        ensures network { IsNetwork self.new }
        ensures plan { KeepsPlan self.old self.new }
        ensures steps { Steps self.old (Lose from to) self.new }
    {
        drop(self.wire.pop(from, to));
    }
}
