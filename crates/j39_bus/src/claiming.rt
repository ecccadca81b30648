//! The steps of units that claim addresses (SAE J1939-81).
ghost use Rattle.std.specs.Prelude.{◌≡◌, ◌<◌, ◌≤◌, ◌+◌, length, vec_len, vec_capacity, OnOk, OnErr};
ghost use Rattle.j39_network.specs.declared.steps.Step.TheVariants.{Up, Give, Ask};
ghost use Rattle.j39_world.specs.ClaimSteps.{switched_on, asked, GivenFrom};
ghost use Rattle.j39_bus.specs.inside.Claims.{HasRoomForOthers};
ghost use Rattle.j39_bus.specs.Queued.{pair_in};
ghost use Rattle.j39_bus.specs.BusState.{Histories};
ghost use Rattle.j39_bus.specs.inside.Network.{IsAllowed, IsNetwork, IsSameNetwork, KeepsPlan, planned_units, world_in};
ghost use Rattle.j39_bus.specs.inside.Network.{Steps};

use crate::hearing::hear;
use crate::network::Network;
use j39_claim::{Choose, Item};
use std::alloc::AllocError;

impl Network {
    /// The unit is switched on.
    pub(crate) fn up(&mut self, unit: usize) -> Result<(), AllocError>
        requires network { IsNetwork self.old }
        requires allowed { IsAllowed self.old (Up unit) }
        ensures network { IsNetwork self.new }
        ensures plan { KeepsPlan self.old self.new }
        ensures steps { OnOk result (Steps self.old (Up unit) self.new) }
        ensures same { OnErr result (IsSameNetwork self.old self.new) }
    {
        self.reserve(unit, 1)?;
        self.switch_on(unit);
        Ok(())
    }

    /// The second unit hears the oldest item of the first that it has not heard yet.
    pub(crate) fn give(
        &mut self,
        choosers: &[Box<dyn Choose>],
        from: usize,
        to: usize,
    ) -> Result<(), AllocError>
        requires network { IsNetwork self.old }
        requires allowed { IsAllowed self.old (Give from to) }
        requires choosers { length choosers.now ≡ length self.old.claimers.items }
        ensures network { IsNetwork self.new }
        ensures plan { KeepsPlan self.old self.new }
        ensures steps { OnOk result (Steps self.old (Give from to) self.new) }
        ensures same { OnErr result (IsSameNetwork self.old self.new) }
    {
        self.reserve(to, 1)?;
        self.deliver(choosers, from, to);
        Ok(())
    }

    /// The unit asks all others for their claims, and sends its own. One that doesn't claim says nothing.
    pub(crate) fn ask(&mut self, unit: usize) -> Result<(), AllocError>
        requires network { IsNetwork self.old }
        requires allowed { IsAllowed self.old (Ask unit) }
        ensures network { IsNetwork self.new }
        ensures plan { KeepsPlan self.old self.new }
        ensures steps { OnOk result (Steps self.old (Ask unit) self.new) }
        ensures same { OnErr result (IsSameNetwork self.old self.new) }
    {
        self.reserve(unit, 2)?;
        self.request(unit);
        Ok(())
    }

    fn switch_on(&mut self, unit: usize)
        requires network { IsNetwork self.old }
        requires place { unit < length self.old.claimers.items }
        requires room { HasRoomForOthers self.old.claims self.old.claimers.items unit 1 }
        requires frames { vec_len self.old.frames < vec_capacity self.old.frames }
        ensures network { IsNetwork self.new }
        ensures plan { KeepsPlan self.old self.new }
        ensures rest { self.new
            ≡ record self.old
            { claimers = self.new.claimers; claims = self.new.claims; wire = self.new.wire; frames = self.new.frames } }
        ensures world { (h : Histories)
            → world_in h self.new ≡ switched_on (planned_units self.old.claimers.items) (world_in h self.old) unit }
    {
        self.claims.clear_to(unit);
        self.wire.clear_to(unit);
        let first = self.claimers[unit].start();
        match first {
            Some(say) => self.send_to_others(unit, Item::AddressClaimed(say)),
            None => {}
        }
    }

    fn deliver(&mut self, choosers: &[Box<dyn Choose>], from: usize, to: usize)
        requires network { IsNetwork self.old }
        requires choosers { length choosers.now ≡ length self.old.claimers.items }
        requires from { from < length self.old.claimers.items }
        requires to { to < length self.old.claimers.items }
        requires some { 0 < length (pair_in self.old.claims.lists from to) }
        requires room { HasRoomForOthers self.old.claims self.old.claimers.items to 1 }
        requires frames { vec_len self.old.frames < vec_capacity self.old.frames }
        ensures network { IsNetwork self.new }
        ensures plan { KeepsPlan self.old self.new }
        ensures rest { self.new
            ≡ record self.old { claimers = self.new.claimers; claims = self.new.claims; frames = self.new.frames } }
        ensures world { (h : Histories) → GivenFrom (planned_units self.old.claimers.items)
            (world_in h self.old) from to (pair_in self.old.claims.lists from to)
            (world_in h self.new) }
    {
        let name = self.claimers[from].name();
        let Some(item) = self.claims.pop(from, to) else {
            unreachable!()
        };
        let answer = hear(&mut self.claimers, choosers, to, name, &item);
        match answer {
            Some(say) => self.send_to_others(to, Item::AddressClaimed(say)),
            None => {}
        }
    }

    fn request(&mut self, unit: usize)
        requires network { IsNetwork self.old }
        requires place { unit < length self.old.claimers.items }
        requires room { HasRoomForOthers self.old.claims self.old.claimers.items unit 2 }
        requires frames { vec_len self.old.frames + 2 ≤ vec_capacity self.old.frames }
        ensures network { IsNetwork self.new }
        ensures plan { KeepsPlan self.old self.new }
        ensures rest { self.new
            ≡ record self.old { claimers = self.new.claimers; claims = self.new.claims; frames = self.new.frames } }
        ensures world { (h : Histories)
            → world_in h self.new ≡ asked (planned_units self.old.claimers.items) (world_in h self.old) unit }
    {
        let answer = self.claimers[unit].hear_request();
        match answer {
            Some(say) => {
                self.send_to_others(unit, Item::Request);
                self.send_to_others(unit, Item::AddressClaimed(say));
            }
            None => {}
        }
    }
}
