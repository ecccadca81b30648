//! How long the broadcasts of units take, one of each flow.
ghost use Rattle.std.specs.Prelude.{◌≡◌, ◌<◌, ◌^◌, length, IfOk, Some};
ghost use Rattle.std.specs.Option.{ForSome};
ghost use Rattle.j39_load.specs.AskedLoads.{asked_in};
ghost use Rattle.j39_load.specs.Delays.{IsTurn, known_turn, packet_time, flow_turn, turn_time};
ghost use Rattle.j39_load.specs.SoundLoads.{IsSoundUnit};
ghost use Rattle.j39_load.specs.inside.BufferingDelays.{AreFitBufferingDelays, buffering_of};
ghost use Rattle.j39_load.specs.inside.TurnTimes.{AreShortTurns, AreTurns, IsShortTurn};

use crate::frames::{bits_at_least, bits_at_most};
use crate::loads::{Loads, UnitLoad};
use crate::queues::BufferingDelays;
use crate::waits::delays::wait_in;
use crate::waits::turn::Turn;
use j39_network::Timing;
use std::alloc::{AllocError, Global};

// The longest time from the end of one frame of a message to the end of the next packet, where packets wait for so
// long.
fn packet_time(timing: Timing, load: &UnitLoad, sent: u32) -> u64
    requires load { IsSoundUnit load.now }
    requires sent { sent < 2 ^ 27 }
    ensures time { result ≡ packet_time timing load.now sent }
    ensures short { result < 2 ^ 28 }
{
    let pause = bits_at_most(timing, timing.broadcast_gap_most);
    u64::from(pause) + (u64::from(sent) + u64::from(load.packets.stream.bits))
}

// The longest message of each flow of a unit, one after the other, where announcements and packets wait for so long.
fn flow_turn(timing: Timing, load: &UnitLoad, announced: u32, sent: u32) -> Turn
    requires load { IsSoundUnit load.now }
    requires announced { announced < 2 ^ 27 }
    requires sent { sent < 2 ^ 27 }
    ensures turn { result ≡ flow_turn timing load.now announced sent }
    ensures short { IsShortTurn (Some result) }
{
    let announcement = u64::from(announced) + u64::from(load.announcements.stream.bits);
    let packet = packet_time(timing, load, sent);
    let announcements = u64::from(load.flows) * announcement;
    Turn {
        time: announcements + u64::from(load.all_packets) * packet,
        announcement,
        packet,
    }
}

// The same where both waits are known, and no receiver gives up in between.
fn known_turn(
    timing: Timing,
    load: &UnitLoad,
    announced: Option<u32>,
    sent: Option<u32>,
) -> Option<Turn>
    requires load { IsSoundUnit load.now }
    requires announced { ForSome announced (λ bits. bits < 2 ^ 27) }
    requires sent { ForSome sent (λ bits. bits < 2 ^ 27) }
    ensures turn { result ≡ known_turn timing load.now announced sent }
    ensures short { IsShortTurn result }
{
    let Some(announced) = announced else {
        return None;
    };
    let Some(sent) = sent else {
        return None;
    };
    if packet_time(timing, load, sent) <= u64::from(bits_at_least(timing, 750)) {
        Some(flow_turn(timing, load, announced, sent))
    } else {
        None
    }
}

impl Loads {
    // The turn of the unit at a place, among all frames at the end of their buffering delays.
    fn turn_of_unit(
        &self,
        alloc: Global,
        buffering_delays: &BufferingDelays,
        unit: usize,
    ) -> Result<Option<Turn>, AllocError>
        requires buffering_delays { AreFitBufferingDelays buffering_delays.now }
        requires unit { unit < length self.now.units.items }
        ensures turn { IfOk result (IsTurn self.now.timing (asked_in self.now)
            (buffering_of buffering_delays.now) unit) }
        ensures short { IfOk result IsShortTurn }
    {
        let Some(load) = &self.units[unit] else {
            return Ok(None);
        };
        let place = self.announcements_place(unit);
        let announced = wait_in(
            alloc,
            self.timing,
            buffering_delays,
            place,
            &load.announcements,
        )?;
        let place = self.packets_place(unit);
        let sent = wait_in(alloc, self.timing, buffering_delays, place, &load.packets)?;
        Ok(known_turn(self.timing, load, announced, sent))
    }

    /// The turns of the units, in order, among all frames at the end of their buffering delays.
    pub(crate) fn turns(
        &self,
        alloc: Global,
        buffering_delays: &BufferingDelays,
    ) -> Result<Vec<Option<Turn>>, AllocError>
        requires { AreFitBufferingDelays buffering_delays.now }
        ensures turns { IfOk result (λ turns.
            AreTurns self.now.timing (asked_in self.now) (buffering_of buffering_delays.now) turns.items) }
        ensures short { IfOk result (λ turns. AreShortTurns turns.items) }
    {
        let mut turns = Vec::new(alloc);
        for unit in 0..self.units.len() {
            let turn = self.turn_of_unit(alloc, buffering_delays, unit)?;
            turns.push(turn)?;
        }
        Ok(turns)
    }
}
