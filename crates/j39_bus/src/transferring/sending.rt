//! A frame is sent alone, beside whatever message its unit sends.
ghost use Rattle.std.specs.Prelude.{◌≡◌, ◌≤◌, length, OnOk, OnErr};
ghost use Rattle.j39_network.specs.declared.steps.Step.TheVariants.{Send};
ghost use Rattle.j39_bus.specs.BusState.{Histories};
ghost use Rattle.j39_bus.specs.inside.Network.{IsAllowed, IsNetwork, IsReadyFor, IsSameNetwork, KeepsPlan, Steps};
ghost use Rattle.j39_bus.specs.inside.Network.{has_sent, world_in};
ghost use Rattle.j39_world.specs.TransferSteps.{sends_alone};

use crate::network::Network;
use j39_world::{Flow, Short, Wired};
use std::alloc::AllocError;

impl Network {
    /// The sender of the flow at this place sends these bytes at once.
    pub(crate) fn send(&mut self, place: usize, bytes: &Vec<u8>) -> Result<(), AllocError>
        requires network { IsNetwork self.old }
        requires allowed { IsAllowed self.old (Send place bytes.now) }
        ensures network { IsNetwork self.new }
        ensures plan { KeepsPlan self.old self.new }
        ensures steps { OnOk result (Steps self.old (Send place bytes.now) self.new) }
        ensures same { OnErr result (IsSameNetwork self.old self.new) }
    {
        let (flow, targets) = self.prepare(place)?;
        self.send_frame(place, &flow, bytes.as_slice(), targets.as_slice());
        Ok(())
    }

    fn send_frame(&mut self, place: usize, flow: &Flow, bytes: &[u8], targets: &[usize])
        requires network { IsNetwork self.old }
        requires ready { IsReadyFor self.old flow.now targets.now }
        requires bytes { length bytes.now ≤ 8 }
        ensures network { IsNetwork self.new }
        ensures plan { KeepsPlan self.old self.new }
        ensures receivers { self.new.receivers ≡ self.old.receivers }
        ensures world { (h : Histories)
            → world_in (has_sent h place flow.now targets.now bytes.now) self.new ≡ sends_alone
            (length self.old.claimers.items) (world_in h self.old) place flow.now bytes.now }
    {
        let item = Wired::Alone(place, Short::new(bytes));
        self.send_by(flow, targets, &item);
    }
}
