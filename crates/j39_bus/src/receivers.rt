//! A receiver of each unit for what each other sends.
ghost use Rattle.std.specs.Prelude.{◌≡◌, ℕ, ◌<◌, ◌≤◌, true, [], length, map, vec_capacity, OnOk, OnErr};
ghost use Rattle.std.specs.Prelude.{IfOk};
ghost use Rattle.j39_tp.specs.declared.receiving.manner.Manner.TheVariants.{Answering};
ghost use Rattle.j39_world.specs.Flows.{window_at};
ghost use Rattle.j39_tp.specs.Receiver.{hears, is_complete, receives, timed_out, gives_up, is_open_at, message_of};
ghost use Rattle.j39_world.specs.World.{changed_pair};
ghost use Rattle.j39_bus.specs.BusState.{closed, holding_at};
ghost use Rattle.j39_bus.specs.inside.Receivers.{HasRoomFor, AnswersWithWindow, IsReady, answering, holding_of};
ghost use Rattle.j39_bus.specs.inside.Receivers.{left_at};
ghost use Rattle.j39_bus.specs.inside.Receivers.{left_of, message_in, without_holdings_of};
ghost use Rattle.j39_bus.specs.inside.Receivers.{receiver_at};

use crate::places::empty_places;
use j39_network::UnitPlan;
use j39_tp::{Heard, Packet, Receiver};
use std::alloc::{AllocError, Global};
use std::marker::Model;

/// Of each unit for each that sends to it: a receiver from the announcement of a message until it is closed or the
/// message is complete, with how many packets each unit lets be sent to it for one CTS.
#[derive(Drop)]
pub(crate) struct Receivers {
    windows: Vec<u8>,
    rows: Vec<Vec<Option<Box<Receiver>>>>,
}

impl Model for Receivers {
    ghost use Rattle.j39_bus.specs.BusState.{ReceiverTable};

    ghost Value = { ReceiverTable };

    ghost use Rattle.j39_bus.specs.inside.Receivers.{IsReceivers, holdings_of};

    ghost view = { λ r. record { windows = r.windows.items; holdings = holdings_of r.rows.items } };

    ghost invariant = { λ r. IsReceivers r.windows.items r.rows.items };
}

// A closed receiver with this window for a packet that announces a message, if there is none.
fn fill(
    alloc: Global,
    slot: &mut Option<Box<Receiver>>,
    window: u8,
    packet: &Packet,
) -> Result<(), AllocError>
    requires window { 0 < window }
    requires answering { AnswersWithWindow window slot.old }
    ensures same { holding_of slot.new ≡ holding_of slot.old }
    ensures ready { OnOk result (IsReady packet.now slot.new) }
    ensures answering { AnswersWithWindow window slot.new }
{
    if packet.is_announcement() && slot.is_none() {
        let Some(receiver) = Receiver::new(window) else {
            unreachable!()
        };
        *slot = Some(Box::new(alloc, receiver)?);
    }
    Ok(())
}

// What a receiver does with a packet; where there is none, nothing.
fn send_to_others(slot: &mut Option<Box<Receiver>>, packet: &Packet) -> Heard
    requires ready { IsReady packet.now slot.old }
    ensures heard { (window : ℕ) → AnswersWithWindow window slot.old
        → result ≡ (hears (Answering window) (holding_of slot.old).progress packet.now).1 }
    ensures after { (window : ℕ) → AnswersWithWindow window slot.old
        → answering window (holding_of slot.new) ≡ receives (answering window (holding_of slot.old)) packet.now }
    ensures answering { (window : ℕ) → AnswersWithWindow window slot.old → AnswersWithWindow window slot.new }
{
    match slot {
        Some(receiver) => receiver.hear(packet),
        None => Heard::Nothing,
    }
}

// Whether a receiver is open.
fn is_open_in(slot: &Option<Box<Receiver>>) -> bool
    ensures { result ≡ is_open_at (holding_of slot.now).progress }
{
    match slot {
        Some(receiver) => receiver.is_open(),
        None => false,
    }
}

// A receiver that is not open is given up.
fn leave(slot: &mut Option<Box<Receiver>>)
    ensures left { holding_of slot.new ≡ left_at (holding_of slot.old).progress (holding_of slot.old).bytes }
    ensures answering { (window : ℕ) → AnswersWithWindow window slot.old → AnswersWithWindow window slot.new }
{
    if !is_open_in(slot) {
        *slot = None;
    }
}

// Room for the message that a packet completes.
fn room_for(
    alloc: Global,
    slot: &Option<Box<Receiver>>,
    packet: &Packet,
) -> Result<Vec<u8>, AllocError>
    ensures none { IfOk result (λ bytes. bytes.items ≡ []) }
    ensures room { IfOk result (λ bytes. (window : ℕ) → AnswersWithWindow window slot.now
        → HasRoomFor (answering window (holding_of slot.now)) packet.now bytes) }
{
    let size = match slot {
        Some(receiver) => receiver.completes(packet),
        None => None,
    };
    match size {
        Some(size) => Vec::with_capacity(alloc, usize::from(size.bytes())),
        None => Ok(Vec::new(alloc)),
    }
}

// The message that a receiver has completed joins the bytes.
fn collect(slot: &Option<Box<Receiver>>, bytes: &mut Vec<u8>)
    requires none { bytes.old.items ≡ [] }
    requires room { length (holding_of slot.now).bytes ≤ vec_capacity bytes.old }
    ensures { bytes.new.items ≡ message_of (holding_of slot.now).progress (holding_of slot.now).bytes }
{
    if let Some(receiver) = slot {
        let _ = bytes.extend_from_slice(receiver.bytes());
    }
}

// What a receiver of this window does with a packet, and the message that the packet completes. A receiver is made by
// an announcement, and given up where it is not open.
fn hear_in(
    alloc: Global,
    slot: &mut Option<Box<Receiver>>,
    window: u8,
    packet: &Packet,
) -> Result<(Heard, Vec<u8>), AllocError>
    requires window { 0 < window }
    requires answering { AnswersWithWindow window slot.old }
    ensures heard { IfOk result (λ r. r.0 ≡ (hears (Answering window) (holding_of slot.old).progress packet.now).1) }
    ensures after { OnOk result (holding_of slot.new ≡ left_of
        (receives (answering window (holding_of slot.old)) packet.now)) }
    ensures message { IfOk result (λ r. is_complete r.0 ≡ true
        → r.1.items ≡ message_in (receives (answering window (holding_of slot.old)) packet.now)) }
    ensures same { OnErr result (holding_of slot.new ≡ holding_of slot.old) }
    ensures answering { AnswersWithWindow window slot.new }
{
    let mut bytes = room_for(alloc, slot, packet)?;
    fill(alloc, slot, window, packet)?;
    let heard = send_to_others(slot, packet);
    if heard.is_complete() {
        collect(slot, &mut bytes);
    }
    leave(slot);
    Ok((heard, bytes))
}

// What a receiver sends that has heard nothing in time. It is given up where it is not open.
fn late_in(slot: &mut Option<Box<Receiver>>) -> Option<Packet>
    ensures packet { (window : ℕ) → AnswersWithWindow window slot.old
        → result ≡ (timed_out (Answering window) (holding_of slot.old).progress).1 }
    ensures after { (window : ℕ) → AnswersWithWindow window slot.old
        → holding_of slot.new ≡ left_of (gives_up (answering window (holding_of slot.old))) }
    ensures answering { (window : ℕ) → AnswersWithWindow window slot.old → AnswersWithWindow window slot.new }
{
    let packet = match slot {
        Some(receiver) => receiver.late(),
        None => None,
    };
    leave(slot);
    packet
}

// The window of each unit.
fn windows_of(alloc: Global, units: &[UnitPlan]) -> Result<Vec<u8>, AllocError>
    ensures windows { IfOk result (λ windows. windows.items ≡ map (λ p. p.window) units.now) }
    ensures lets_some { IfOk result (λ windows. (v : ℕ) → 0 < window_at windows.items v) }
{
    let mut windows = Vec::with_capacity(alloc, units.len())?;
    for unit in units {
        windows.push_reserved(unit.window);
    }
    Ok(windows)
}

impl Receivers {
    /// No receiver between any two of these units.
    pub(crate) fn new(alloc: Global, units: &[UnitPlan]) -> Result<Self, AllocError>
        ensures windows { IfOk result (λ table. table.windows ≡ map (λ p. p.window) units.now) }
        ensures closed { IfOk result (λ table. (v u : ℕ) → holding_at table.holdings v u ≡ closed) }
    {
        let windows = windows_of(alloc, units)?;
        let mut rows = Vec::with_capacity(alloc, units.len())?;
        for _ in 0..units.len() {
            rows.push_reserved(empty_places(alloc, units.len())?);
        }
        Ok(Receivers { windows, rows })
    }

    /// What the receiver of a unit does with a packet of another, and the message that the packet completes.
    pub(crate) fn hear(
        &mut self,
        alloc: Global,
        from: usize,
        to: usize,
        packet: &Packet,
    ) -> Result<(Heard, Vec<u8>), AllocError>
        requires from { from < length self.old.windows }
        requires to { to < length self.old.windows }
        ensures windows { self.new.windows ≡ self.old.windows }
        ensures heard { IfOk result (λ x. let r = receiver_at self.old to from
            in x.0 ≡ (hears r.manner r.progress packet.now).1) }
        ensures after { OnOk result (holding_at self.new.holdings ≡ changed_pair (holding_at self.old.holdings) to from
            (left_of (receives (receiver_at self.old to from) packet.now))) }
        ensures message { IfOk result (λ x. is_complete x.0 ≡ true
            → x.1.items ≡ message_in (receives (receiver_at self.old to from) packet.now)) }
        ensures same { OnErr result (self.new ≡ self.old) }
    {
        let window = self.windows[to];
        let row = &mut self.rows[to];
        let slot = &mut row[from];
        hear_in(alloc, slot, window, packet)
    }

    /// What the receiver of a unit sends that has heard nothing of another in time.
    pub(crate) fn late(&mut self, from: usize, to: usize) -> Option<Packet>
        requires from { from < length self.old.windows }
        requires to { to < length self.old.windows }
        ensures windows { self.new.windows ≡ self.old.windows }
        ensures packet { let r = receiver_at self.old to from in result ≡ (timed_out r.manner r.progress).1 }
        ensures after { holding_at self.new.holdings
            ≡ changed_pair (holding_at self.old.holdings) to from (left_of (gives_up (receiver_at self.old to from))) }
    {
        let row = &mut self.rows[to];
        let slot = &mut row[from];
        late_in(slot)
    }

    // Gives up the receiver of a unit for what another sends.
    fn close(&mut self, from: usize, to: usize)
        requires from { from < length self.old.windows }
        requires to { to < length self.old.windows }
        ensures windows { self.new.windows ≡ self.old.windows }
        ensures after { holding_at self.new.holdings ≡ changed_pair (holding_at self.old.holdings) to from closed }
    {
        let row = &mut self.rows[to];
        let slot = &mut row[from];
        *slot = None;
    }

    /// A unit is off: its receivers are given up, and those of others for what it sends.
    pub(crate) fn switch_off(&mut self, unit: usize)
        requires { unit < length self.old.windows }
        ensures windows { self.new.windows ≡ self.old.windows }
        ensures after { holding_at self.new.holdings ≡ without_holdings_of unit (holding_at self.old.holdings) }
    {
        for other in 0..self.windows.len() {
            self.close(other, unit);
            self.close(unit, other);
        }
    }

    /// Whether the receiver of a unit for what another sends is open.
    pub(crate) fn is_open(&self, from: usize, to: usize) -> bool
        requires from { from < length self.now.windows }
        requires to { to < length self.now.windows }
        ensures { result ≡ is_open_at (holding_at self.now.holdings to from).progress }
    {
        let row = &self.rows[to];
        is_open_in(&row[from])
    }
}
