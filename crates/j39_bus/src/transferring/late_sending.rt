//! A sender hears nothing in time.
ghost use Rattle.std.specs.Prelude.{◌≡◌, ◌<◌, true, length, vec_len, vec_capacity, OnOk, OnErr};
ghost use Rattle.j39_network.specs.declared.steps.Step.TheVariants.{LateSender};
ghost use Rattle.j39_bus.specs.inside.Network.{IsAllowed, IsNetwork, IsSameNetwork, KeepsPlan, world_in, Steps};
ghost use Rattle.j39_bus.specs.BusState.{Histories, session_at};
ghost use Rattle.j39_world.specs.Run.{is_waiting};
ghost use Rattle.j39_bus.specs.inside.KeptMessages.{HasRoomAlong};
ghost use Rattle.j39_world.specs.TransferSteps.{SenderTimesOut};

use crate::network::Network;
use crate::sessions;
use std::alloc::AllocError;

impl Network {
    /// The unit, which waits for its receiver, hears nothing in time, and gives its message up.
    pub(crate) fn late_sender(&mut self, unit: usize) -> Result<(), AllocError>
        requires network { IsNetwork self.old }
        requires allowed { IsAllowed self.old (LateSender unit) }
        ensures network { IsNetwork self.new }
        ensures plan { KeepsPlan self.old self.new }
        ensures steps { OnOk result (Steps self.old (LateSender unit) self.new) }
        ensures same { OnErr result (IsSameNetwork self.old self.new) }
    {
        self.reserve_along(unit)?;
        self.give_up(unit);
        Ok(())
    }

    fn give_up(&mut self, unit: usize)
        requires network { IsNetwork self.old }
        requires unit { unit < length self.old.claimers.items }
        requires waits { is_waiting (session_at self.old.sessions.items unit) ≡ true }
        requires wire { HasRoomAlong self.old.wire unit (session_at self.old.sessions.items unit) }
        requires frames { vec_len self.old.frames < vec_capacity self.old.frames }
        ensures network { IsNetwork self.new }
        ensures plan { KeepsPlan self.old self.new }
        ensures receivers { self.new.receivers ≡ self.old.receivers }
        ensures world { (h : Histories) → SenderTimesOut (world_in h self.old) unit (world_in h self.new) }
    {
        if let Some(packet) = sessions::late(&mut self.sessions, unit) {
            self.send_along(unit, &packet);
        }
    }
}
