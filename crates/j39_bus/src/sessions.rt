//! The messages that units send, by the places of the units.
ghost use Rattle.std.specs.Prelude.{◌≡◌, ◌<◌, is_some, length};
ghost use Rattle.std.specs.List.{list_any};
ghost use Rattle.std.specs.Option.{option_and_then};
ghost use Rattle.j39_bus.specs.BusState.{session_at};
ghost use Rattle.j39_bus.specs.inside.KeptMessages.{at_stage};
ghost use Rattle.j39_tp.specs.Sender.{data_next, after_packet, timeout_packet, after_timeout};
ghost use Rattle.j39_world.specs.Flows.{dest_of};
ghost use Rattle.j39_world.specs.Run.{can_emit, is_of_group, is_waiting};
ghost use Rattle.j39_world.specs.SwitchingOff.{session_without, sessions_without};
ghost use Rattle.j39_world.specs.TransferSteps.{flow_in, reaction_of, session_after};
ghost use Rattle.j39_world.specs.Transfers.{Outgoing, outcome_in};
ghost use Rattle.j39_world.specs.World.{changed};

use crate::session::Session;
use j39_id::Pgn;
use j39_tp::{Outcome, Packet, Phase, Reaction};

/// Whether some unit sends a message.
pub(crate) fn is_any_open(sessions: &[Option<Session>]) -> bool
    ensures { result ≡ list_any (λ s. is_some s) sessions.now }
{
    sessions.iter().any(|session| session.is_some())
}

/// Whether a unit sends a message.
pub(crate) fn is_open(sessions: &[Option<Session>], unit: usize) -> bool
    requires { unit < length sessions.now }
    ensures { result ≡ is_some (session_at sessions.now unit) }
{
    sessions[unit].is_some()
}

/// Whether a unit sends a message of a group.
pub(crate) fn is_of_group(sessions: &[Option<Session>], unit: usize, group: Pgn) -> bool
    requires { unit < length sessions.now }
    ensures { result ≡ is_of_group (session_at sessions.now unit) group }
{
    match &sessions[unit] {
        Some(session) => session.group() == group,
        None => false,
    }
}

/// How the message of a unit ended, if it has one that did.
pub(crate) fn outcome(sessions: &[Option<Session>], unit: usize) -> Option<Outcome>
    requires { unit < length sessions.now }
    ensures { result ≡ outcome_in (session_at sessions.now unit) }
{
    sessions[unit].as_ref()?.outcome()
}

/// Whether a unit has data packets to send now.
pub(crate) fn is_sending(sessions: &[Option<Session>], unit: usize) -> bool
    requires { unit < length sessions.now }
    ensures { result ≡ can_emit (session_at sessions.now unit) }
{
    match &sessions[unit] {
        Some(session) => session.phase() == Phase::Sending,
        None => false,
    }
}

/// Whether a unit waits for its receiver.
pub(crate) fn is_waiting(sessions: &[Option<Session>], unit: usize) -> bool
    requires { unit < length sessions.now }
    ensures { result ≡ is_waiting (session_at sessions.now unit) }
{
    match &sessions[unit] {
        Some(session) => session.phase() == Phase::Waiting,
        None => false,
    }
}

/// The place of the flow by which a unit sends, or 0.
pub(crate) fn flow_of(sessions: &[Option<Session>], unit: usize) -> usize
    requires { unit < length sessions.now }
    ensures { result ≡ flow_in (session_at sessions.now unit) }
{
    match &sessions[unit] {
        Some(session) => session.flow(),
        None => 0,
    }
}

/// The next data packet of a unit.
pub(crate) fn next_packet(sessions: &mut Vec<Option<Session>>, unit: usize) -> Option<Packet>
    requires { unit < length sessions.old.items }
    ensures packet { result
        ≡ option_and_then (λ (s : Outgoing). data_next s.bytes s.stage) (session_at sessions.old.items unit) }
    ensures session { session_at sessions.new.items ≡ changed (session_at sessions.old.items) unit
        (at_stage (λ s. after_packet (dest_of s.to) s.stage) (session_at sessions.old.items unit)) }
    ensures count { length sessions.new.items ≡ length sessions.old.items }
{
    sessions[unit].as_mut()?.next_packet()
}

/// What a unit sends that has heard nothing in time.
pub(crate) fn late(sessions: &mut Vec<Option<Session>>, unit: usize) -> Option<Packet>
    requires { unit < length sessions.old.items }
    ensures packet { result
        ≡ option_and_then (λ (s : Outgoing). timeout_packet s.pgn s.stage) (session_at sessions.old.items unit) }
    ensures session { session_at sessions.new.items ≡ changed (session_at sessions.old.items) unit
        (at_stage (λ s. after_timeout s.stage) (session_at sessions.old.items unit)) }
    ensures count { length sessions.new.items ≡ length sessions.old.items }
{
    sessions[unit].as_mut()?.late()
}

/// What the sender of a unit does with a packet of another.
pub(crate) fn hear(
    sessions: &mut Vec<Option<Session>>,
    unit: usize,
    from: usize,
    packet: &Packet,
) -> Reaction
    requires { unit < length sessions.old.items }
    ensures reaction { result ≡ reaction_of (session_at sessions.old.items unit) from packet.now }
    ensures session { session_at sessions.new.items ≡ changed (session_at sessions.old.items) unit
        (session_after (session_at sessions.old.items unit) from packet.now) }
    ensures count { length sessions.new.items ≡ length sessions.old.items }
{
    match &mut sessions[unit] {
        Some(session) => session.hear(from, packet),
        None => Reaction::Nothing,
    }
}

// The message of a unit goes to another no more, since this is off.
fn leave_out(sessions: &mut Vec<Option<Session>>, sender: usize, unit: usize)
    requires { sender < length sessions.old.items }
    ensures session { session_at sessions.new.items ≡ changed (session_at sessions.old.items) sender
        (session_without unit (session_at sessions.old.items sender)) }
    ensures count { length sessions.new.items ≡ length sessions.old.items }
{
    if let Some(session) = &mut sessions[sender] {
        session.leave_out(unit);
    }
}

/// A unit is off: its message is gone, and each other goes to it no more.
pub(crate) fn switch_off(sessions: &mut Vec<Option<Session>>, unit: usize)
    requires { unit < length sessions.old.items }
    ensures sessions { session_at sessions.new.items ≡ sessions_without unit (session_at sessions.old.items) }
    ensures count { length sessions.new.items ≡ length sessions.old.items }
{
    for sender in 0..sessions.len() {
        leave_out(sessions, sender, unit);
    }
    sessions[unit] = None;
}
