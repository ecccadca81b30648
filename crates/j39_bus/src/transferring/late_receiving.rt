//! A receiver hears nothing in time.
ghost use Rattle.std.specs.Prelude.{◌≡◌, ◌<◌, length, vec_len, vec_capacity, OnOk, OnErr};
ghost use Rattle.j39_network.specs.declared.steps.Step.TheVariants.{LateReceiver};
ghost use Rattle.j39_bus.specs.BusState.{Histories};
ghost use Rattle.j39_bus.specs.inside.Network.{HasHeld, IsAllowed, IsNetwork, IsSameNetwork, KeepsPlan, world_in};
ghost use Rattle.j39_bus.specs.inside.Network.{Steps};
ghost use Rattle.j39_bus.specs.Queued.{room_at};
ghost use Rattle.j39_world.specs.TransferSteps.{receiver_timed_out};

use crate::network::Network;
use j39_tp::receivers_gather_what_they_hear;
use std::alloc::AllocError;

impl Network {
    /// The second unit, which receives a message of the first, hears nothing in time: it asks again, or gives up.
    pub(crate) fn late_receiver(&mut self, from: usize, to: usize) -> Result<(), AllocError>
        requires network { IsNetwork self.old }
        requires allowed { IsAllowed self.old (LateReceiver from to) }
        ensures network { IsNetwork self.new }
        ensures plan { KeepsPlan self.old self.new }
        ensures steps { OnOk result (Steps self.old (LateReceiver from to) self.new) }
        ensures same { OnErr result (IsSameNetwork self.old self.new) }
    {
        self.reserve_replies(to, from, 1)?;
        self.ask_again(from, to);
        Ok(())
    }

    fn ask_again(&mut self, from: usize, to: usize)
        requires network { IsNetwork self.old }
        requires from { from < length self.old.claimers.items }
        requires to { to < length self.old.claimers.items }
        requires wire { 0 < room_at self.old.wire to from }
        requires frames { vec_len self.old.frames < vec_capacity self.old.frames }
        ensures network { IsNetwork self.new }
        ensures plan { KeepsPlan self.old self.new }
        ensures world { (h : Histories)
            → world_in h self.new ≡ receiver_timed_out self.old.receivers.windows (world_in h self.old) from to }
        ensures held { (h : Histories) → HasHeld h self.old → HasHeld h self.new }
    {
        receivers_gather_what_they_hear();
        let packet = self.receivers.late(from, to);
        self.reply(to, from, packet);
    }
}
