//! What is announced to all, and whether the plan knows how often.
ghost use Rattle.std.specs.Prelude.{◌≡◌, if◌then◌else◌, Some, None};
ghost use Rattle.std.specs.List.{list_any};
ghost use Rattle.std.specs.Option.{option_map};
ghost use Rattle.j39_network.specs.declared.plan.flow_plan.FlowPlan.{FlowPlan as AFlow};
ghost use Rattle.j39_audit.specs.BegunBroadcasts.{announced_to_all, announcement_in, is_paced, is_unpaced};
ghost use Rattle.j39_audit.specs.Looking.{announced_message, goes_to_another};
ghost use Rattle.j39_audit.specs.SentMessages.{is_fit};
ghost use Rattle.j39_audit.specs.inside.Recalling.{known_by, sent_as, settings_of};

use crate::basis::Basis;
use crate::frame_marks::announced as message_announced;
use crate::known::Known;
use crate::messages::{UnitMessage, is_fit};
use j39_id::Frame;
use j39_id::addresses::NULL_ADDRESS;
use j39_network::FlowPlan;
use j39_tp::Packet;

/// What a packet announces to all: how many bytes of this number.
#[derive(Clone, Copy)]
pub struct Announcement {
    pub size: usize,
    pub number: u32,
}

// Whether a flow may bring a message, and has no period.
fn is_unpaced(basis: &Basis<'_>, known: &Known, message: &UnitMessage<'_>, flow: &FlowPlan) -> bool
    ensures { result ≡ is_unpaced (settings_of basis.now) (known_by known.now) (sent_as message.now) flow.now }
{
    is_fit(basis, known, message, flow) && flow.pace.is_none()
}

// Whether some flow may bring a message.
fn has_flow(basis: &Basis<'_>, known: &Known, message: &UnitMessage<'_>) -> bool
    ensures { result ≡ list_any (λ (f : AFlow). is_fit (settings_of basis.now) (known_by known.now)
        (sent_as message.now) f) basis.now.plan.now.flows.items }
{
    basis
        .plan
        .flows
        .as_slice()
        .iter()
        .any(|flow| is_fit(basis, known, message, flow))
}

// Whether one without a period may.
fn has_unpaced(basis: &Basis<'_>, known: &Known, message: &UnitMessage<'_>) -> bool
    ensures { result ≡ list_any (λ (f : AFlow). is_unpaced (settings_of basis.now) (known_by known.now)
        (sent_as message.now) f) basis.now.plan.now.flows.items }
{
    basis
        .plan
        .flows
        .as_slice()
        .iter()
        .any(|flow| is_unpaced(basis, known, message, flow))
}

/// Whether a message is planned, and each flow that may bring it has a period.
#[tactic(auto, unfolding(crate::specs::BegunBroadcasts::is_paced))]
pub(crate) fn is_paced(basis: &Basis<'_>, known: &Known, message: &UnitMessage<'_>) -> bool
    ensures { result ≡ is_paced (settings_of basis.now) (known_by known.now) (sent_as message.now) }
{
    has_flow(basis, known, message) && !has_unpaced(basis, known, message)
}

// What a packet announces to all.
fn announcement_of(packet: &Packet) -> Option<Announcement>
    ensures { result ≡ announcement_in (Some packet.now) }
{
    match packet {
        Packet::Bam { size, pgn } => Some(Announcement {
            size: usize::from(size.bytes()),
            number: pgn.number(),
        }),
        _ => None,
    }
}

/// What is announced to all, if a frame is a packet that does.
pub(crate) fn announcement_in(packet: &Option<Packet>) -> Option<Announcement>
    ensures { result ≡ announcement_in packet.now }
{
    match packet {
        Some(packet) => announcement_of(packet),
        None => None,
    }
}

/// The message of a unit that is announced.
pub(crate) fn announced_to_all(
    unit: usize,
    frame: &Frame,
    announced: Option<Announcement>,
) -> Option<UnitMessage<'static>>
    ensures { option_map sent_as result ≡ announced_to_all unit frame.now announced }
{
    match announced {
        Some(reported) => Some(message_announced(unit, frame, reported.size, reported.number)),
        None => None,
    }
}

// Whether a frame goes to another address.
fn goes_to_another(frame: &Frame) -> bool
    ensures { result ≡ goes_to_another frame.now }
{
    frame.ident.ps < NULL_ADDRESS && frame.ident.ps != frame.ident.sa
}

/// The message of a unit that a packet to one announces, if it goes to another address.
pub(crate) fn announced_to_one(
    unit: usize,
    frame: &Frame,
    size: usize,
    number: u32,
) -> Option<UnitMessage<'static>>
    ensures { option_map sent_as result ≡ (if goes_to_another frame.now
        then Some (announced_message unit frame.now size number) else None) }
{
    if goes_to_another(frame) {
        Some(message_announced(unit, frame, size, number))
    } else {
        None
    }
}
