//! A simulated bus.
ghost use Rattle.std.specs.Prelude.{◌≡◌, ◌<◌, ◌↔◌, IsTrue, length, map};
ghost use Rattle.j39_bus.specs.BusState.{session_at, undelivered};
ghost use Rattle.j39_bus.specs.Stations.{station_at};
ghost use Rattle.j39_world.specs.Sent.{sent_of};
ghost use Rattle.j39_bus.specs.Reports.{reported_of};
ghost use Rattle.j39_world.specs.Transfers.{outcome_in};
ghost use Rattle.j39_world.specs.Sound.{IsQuiet};

use crate::claims::are_settled;
use crate::network::Network;
use crate::{Report, sessions};
use j39_claim::Choose;
use j39_id::{Address, Frame};
use j39_tp::Outcome;
use std::marker::Model;

/// The units of a plan on one bus, named by their places from 0. What each has still to hear is delivered by steps.
/// Contracts see what each unit is, what is undelivered from each to each, what the units send one another, and the
/// frames that were sent.
#[derive(Drop)]
pub struct Bus {
    pub(crate) network: Network,
    pub(crate) choosers: Vec<Box<dyn Choose>>,
}

impl Model for Bus {
    ghost use Rattle.std.specs.Prelude.{length};
    ghost use Rattle.j39_bus.specs.BusState.{BusState};
    ghost use Rattle.std.specs.Coded.{codes};
    ghost use Rattle.j39_claim.specs.ClaimerValue.{coded_claimer};

    ghost Value = { BusState };

    ghost coded = { Prim.hlevel (codes, coded_claimer) };

    ghost use Rattle.j39_bus.specs.inside.Network.{bus_state, IsBus};

    ghost view = { λ b. bus_state b.network };

    ghost invariant = { λ b. IsBus b.network (length b.choosers.items) };
}

impl Bus {
    /// Whether no claim is undelivered, be it of a unit that is off again. A request may be.
    pub fn is_settled(&self) -> bool
        ensures { IsTrue result ↔ IsQuiet (undelivered self.now) }
    {
        are_settled(&self.network.claims, self.network.claimers.len())
    }

    /// Whether the unit is on.
    pub fn is_started(&self, unit: usize) -> bool
        requires { unit < length self.now.units }
        ensures { result ≡ (station_at self.now.units unit).on }
    {
        self.network.claimers[unit].is_started()
    }

    /// The address that the unit holds.
    pub fn address_of(&self, unit: usize) -> Option<Address>
        requires { unit < length self.now.units }
        ensures { result ≡ (station_at self.now.units unit).address }
    {
        self.network.claimers[unit].address()
    }

    /// How the message of the unit ended, until the unit rests.
    pub fn outcome_of(&self, unit: usize) -> Option<Outcome>
        requires { unit < length self.now.units }
        ensures { result ≡ outcome_in (session_at self.now.sessions unit) }
    {
        sessions::outcome(self.network.sessions.as_slice(), unit)
    }

    /// All messages that were received whole so far, in order.
    pub fn reports(&self) -> &[Report]
        ensures { map reported_of result.now ≡ self.now.reports }
    {
        self.network.reports.as_slice()
    }

    /// All frames that were sent so far, in order.
    pub fn frames(&self) -> &[Frame]
        ensures { map sent_of result.now ≡ self.now.frames }
    {
        self.network.frames.as_slice()
    }
}
