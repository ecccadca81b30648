//! What is noted at a frame.
ghost use Rattle.std.specs.Prelude.{◌≡◌, ◌||◌, ◌<◌, true, false, OnOk};
ghost use Rattle.std.specs.Option.{option_map};
ghost use Rattle.j39_id.specs.Ident.{pgn_of};
ghost use Rattle.j39_audit.specs.Claiming.{HeardClaims};
ghost use Rattle.j39_audit.specs.Looking.{announced_message, announced_by as message_announced};
ghost use Rattle.j39_audit.specs.Looking.{claims_behind, counted, frame_noted};
ghost use Rattle.j39_audit.specs.Looking.{is_above_unplanned as is_above};
ghost use Rattle.j39_audit.specs.Looking.{is_claim, is_claiming as claims_addresses};
ghost use Rattle.j39_audit.specs.Looking.{is_of_transport as is_for_transport, may_be_transport, is_of_own_group};
ghost use Rattle.j39_audit.specs.Looking.{is_single as is_single_number, is_urgent as is_urgent_frame, mark_noted};
ghost use Rattle.j39_audit.specs.Looking.{message_noted};
ghost use Rattle.j39_audit.specs.Looking.{answer_noted, answers_request, asked_noted, is_no_flow, told_of};
ghost use Rattle.j39_audit.specs.Looking.{message_sent, noted_if, request_noted, sent_noted, single as single_message};
ghost use Rattle.j39_audit.specs.SentMessages.{deviation as differing_as};
ghost use Rattle.j39_audit.specs.inside.Recalling.{KnowsClaims, Notes, known_by, sent_as, settings_of};

use crate::announcements::announced_to_one;
use crate::basis::Basis;
use crate::claim_marks::note_claim;
use crate::flow_marks::{flows_meant, note_flows, note_requests};
use crate::known::Known;
use crate::mark::{Mark, Word, make_mark};
use crate::messages::{Test, UnitMessage, deviation, first_group};
use crate::senders::{SureSender, sender_at};
use crate::tally::MarkTally;
use j39_follow::unit_named;
use j39_id::addresses::NULL_ADDRESS;
use j39_id::services::{ADDRESS_CLAIMED, CONNECTION_MANAGEMENT, DATA_TRANSFER, REQUEST};
use j39_id::{
    Frame, Name, cannot_claim, carried_name, claims_address, requested_group, requests_group,
};
use j39_tp::Packet;
use std::alloc::AllocError;

/// Whether the priority of a frame is above that of all that isn't planned.
pub(crate) fn is_above_unplanned(basis: &Basis<'_>, frame: &Frame) -> bool
    ensures { result ≡ is_above (settings_of basis.now) frame.now }
{
    match basis.plan.timing {
        Some(timing) => frame.ident.priority < timing.unplanned_priority,
        None => false,
    }
}

// Whether frames of long messages may have the priority of a frame.
fn has_transport_priority(basis: &Basis<'_>, frame: &Frame) -> bool
    ensures { result ≡ may_be_transport (settings_of basis.now) frame.now }
{
    match basis.plan.timing {
        Some(timing) => timing.transport_priority <= frame.ident.priority,
        None => false,
    }
}

// Whether a frame is one of long messages, and its priority one of these.
fn is_of_transport(basis: &Basis<'_>, frame: &Frame) -> bool
    ensures { result ≡ is_for_transport (settings_of basis.now) frame.now }
{
    let pgn = frame.ident.pgn();
    (pgn == CONNECTION_MANAGEMENT || pgn == DATA_TRANSFER) && has_transport_priority(basis, frame)
}

/// Notes a mark where a frame is one.
pub(crate) fn note_if(
    tally: &mut MarkTally,
    is: bool,
    mark: Mark,
    line: u64,
    detail: u64,
) -> Result<(), AllocError>
    ensures { OnOk result (Notes tally.old tally.new
        (noted_if is (record { mark = mark; line = line; detail = detail }))) }
{
    if is {
        tally.note(mark, line, detail)?;
    }
    Ok(())
}

/// Whether a unit claims addresses at all.
pub(crate) fn is_claiming(basis: &Basis<'_>, unit: usize) -> bool
    ensures { result ≡ claims_addresses (settings_of basis.now) unit }
{
    match basis.plan.units.get(unit) {
        Some(planned) => planned.claims,
        None => false,
    }
}

/// Whether a frame is none of the network itself and of long messages.
pub(crate) fn is_single(frame: &Frame) -> bool
    ensures { result ≡ is_single_number (pgn_of frame.now.ident) }
{
    let pgn = frame.ident.pgn();
    !(pgn == ADDRESS_CLAIMED
        || (pgn == REQUEST || (pgn == CONNECTION_MANAGEMENT || pgn == DATA_TRANSFER)))
}

// The message that a frame is.
fn single(unit: usize, frame: &Frame) -> UnitMessage<'_>
    ensures { sent_as result ≡ single_message unit frame.now }
{
    let pgn = frame.ident.pgn();
    UnitMessage {
        unit,
        source: frame.ident.sa,
        number: pgn.number(),
        destination: frame.ident.ps,
        unaddressed: !pgn.is_pdu1(),
        priority: Some(frame.ident.priority),
        size: frame.payload.len(),
        bytes: Some(frame.payload.as_slice()),
    }
}

/// A message of this size and number that a frame announces.
pub(crate) fn announced(
    unit: usize,
    frame: &Frame,
    size: usize,
    number: u32,
) -> UnitMessage<'static>
    ensures { sent_as result ≡ announced_message unit frame.now size number }
{
    UnitMessage {
        unit,
        source: frame.ident.sa,
        number,
        destination: frame.ident.ps,
        unaddressed: false,
        priority: None,
        size,
        bytes: None,
    }
}

// The message that a packet announces, if there is one that does.
fn announced_by(unit: usize, frame: &Frame, packet: Option<Packet>) -> Option<UnitMessage<'static>>
    ensures { option_map sent_as result ≡ message_announced unit frame.now packet }
{
    let Some(packet) = packet else {
        return None;
    };
    match packet {
        Packet::Rts { size, pgn, .. } => {
            announced_to_one(unit, frame, usize::from(size.bytes()), pgn.number())
        }
        Packet::Bam { size, pgn } => {
            Some(announced(unit, frame, usize::from(size.bytes()), pgn.number()))
        }
        _ => None,
    }
}

// The message that a frame is or announces.
fn message_of(unit: usize, frame: &Frame, packet: Option<Packet>) -> Option<UnitMessage<'_>>
    ensures { option_map sent_as result ≡ message_sent unit frame.now packet }
{
    if is_single(frame) {
        Some(single(unit, frame))
    } else {
        announced_by(unit, frame, packet)
    }
}

// Notes how a message differs.
fn note_deviation(tally: &mut MarkTally, mark: Option<Mark>, line: u64) -> Result<(), AllocError>
    ensures { OnOk result (Notes tally.old tally.new (mark_noted line mark)) }
{
    match mark {
        Some(mark) => tally.note(mark, line, 0),
        None => Ok(()),
    }
}

// Whether no flow may bring a message there.
fn is_no_flow(word: Word) -> bool
    ensures { result ≡ is_no_flow word }
{
    matches!(word, Word::NoFlow)
}

// Whether a message that differs so answers.
#[tactic(auto, unfolding(crate::specs::Looking::answers_request))]
fn answers_request(
    basis: &Basis<'_>,
    known: &Known,
    message: &UnitMessage<'_>,
    mark: Option<Mark>,
) -> bool
    requires { mark ≡ differing_as (settings_of basis.now) (known_by known.now) (sent_as message.now) }
    ensures { result ≡ answers_request (settings_of basis.now) (known_by known.now) (sent_as message.now) }
{
    match mark {
        Some(mark) => {
            is_no_flow(mark.word)
                && known.was_asked_for(basis, false, message.number, message.source)
        }
        None => false,
    }
}

// Notes that a message that differs so answers, if it does.
fn note_answer(
    tally: &mut MarkTally,
    answers: bool,
    mark: Option<Mark>,
    line: u64,
) -> Result<(), AllocError>
    ensures { OnOk result (Notes tally.old tally.new (answer_noted line answers mark)) }
{
    if !answers {
        return Ok(());
    }
    let Some(mark) = mark else {
        return Ok(());
    };
    let answered = Mark {
        word: Word::Answered,
        ..mark
    };
    tally.note(answered, line, 0)?;
    tally.note(make_mark(Word::Answers, mark.subject), line, 0)
}

// How a message differs, unless it answers.
fn told_of(answers: bool, mark: Option<Mark>) -> Option<Mark>
    ensures { result ≡ told_of answers mark }
{
    if answers { None } else { mark }
}

// Notes what was asked for: that a message that differs so answers, and whether none of the plan's requests asked for
// it.
fn note_asked(
    tally: &mut MarkTally,
    basis: &Basis<'_>,
    known: &Known,
    message: &UnitMessage<'_>,
    answers: bool,
    mark: Option<Mark>,
    line: u64,
) -> Result<(), AllocError>
    requires mark { mark ≡ differing_as (settings_of basis.now) (known_by known.now) (sent_as message.now) }
    requires answers { answers ≡ answers_request (settings_of basis.now) (known_by known.now) (sent_as message.now) }
    ensures { OnOk result (Notes tally.old tally.new
        (asked_noted (settings_of basis.now) (known_by known.now) (sent_as message.now) line)) }
{
    note_answer(tally, answers, mark, line)?;
    let besides = known.was_asked_for(basis, true, message.number, message.source);
    note_if(tally, besides, make_mark(Word::Besides, 0), line, 0)
}

// Notes what a message is, and how it differs, if there is one.
fn note_message(
    tally: &mut MarkTally,
    basis: &Basis<'_>,
    known: &Known,
    message: Option<UnitMessage<'_>>,
    line: u64,
) -> Result<(), AllocError>
    ensures { OnOk result (Notes tally.old tally.new
        (message_noted (settings_of basis.now) (known_by known.now) line (option_map sent_as message.entry))) }
{
    let Some(message) = message else {
        return Ok(());
    };
    let meant = flows_meant(basis, known, &message);
    let mark = deviation(basis, known, &message, meant);
    let answers = answers_request(basis, known, &message, mark);
    note_deviation(tally, told_of(answers, mark), line)?;
    note_flows(tally, basis, known, &message, meant, line)?;
    note_asked(tally, basis, known, &message, answers, mark, line)
}

// Notes the request that a frame is.
fn note_request(
    tally: &mut MarkTally,
    basis: &Basis<'_>,
    known: &Known,
    frame: &Frame,
    line: u64,
    unit: usize,
) -> Result<(), AllocError>
    ensures { OnOk result (Notes tally.old tally.new
        (request_noted (settings_of basis.now) (known_by known.now) unit frame.now line)) }
{
    if !requests_group(frame) {
        return Ok(());
    }
    let message = announced(unit, frame, 0, requested_group(frame));
    note_requests(tally, basis, known, &message, line)
}

// Whether a frame is of the number of a group of a unit.
fn is_of_group(basis: &Basis<'_>, frame: &Frame, unit: usize) -> bool
    ensures { result ≡ is_of_own_group (settings_of basis.now) unit frame.now }
{
    is_single(frame) && first_group(basis, &single(unit, frame), Test::Any).is_some()
}

// Whether the priority of a frame of a unit is above what such frames may have.
fn is_urgent(basis: &Basis<'_>, frame: &Frame, unit: usize) -> bool
    ensures { result ≡ is_urgent_frame (settings_of basis.now) unit frame.now }
{
    is_above_unplanned(basis, frame)
        && (!is_of_transport(basis, frame) && !is_of_group(basis, frame, unit))
}

// Notes a frame of a unit.
#[tactic(auto, unfolding(crate::specs::Looking::counted))]
fn note_counted(
    tally: &mut MarkTally,
    basis: &Basis<'_>,
    known: &Known,
    frame: &Frame,
    packet: Option<Packet>,
    line: u64,
    unit: usize,
) -> Result<(), AllocError>
    ensures { OnOk result (Notes tally.old tally.new
        (counted (settings_of basis.now) (known_by known.now) frame.now packet line unit)) }
{
    tally.note(make_mark(Word::Counted, unit), line, 0)?;
    note_message(tally, basis, known, message_of(unit, frame, packet), line)?;
    note_request(tally, basis, known, frame, line, unit)?;
    let urgent = is_urgent(basis, frame, unit);
    note_if(tally, urgent, make_mark(Word::Urgent, unit), line, 0)?;
    Ok(())
}

// Notes a frame that is no claim, of this sender.
fn note_sent(
    tally: &mut MarkTally,
    basis: &Basis<'_>,
    known: &Known,
    frame: &Frame,
    packet: Option<Packet>,
    line: u64,
    sender: SureSender,
) -> Result<(), AllocError>
    ensures { OnOk result (Notes tally.old tally.new
        (sent_noted (settings_of basis.now) (known_by known.now) frame.now packet line sender)) }
{
    match sender {
        SureSender::Unit(unit) => note_counted(tally, basis, known, frame, packet, line, unit),
        SureSender::Nobody => tally.note(
            make_mark(Word::Nobody, usize::from(frame.ident.sa)),
            line,
            0,
        ),
        SureSender::Unknown => tally.note(make_mark(Word::Unsure, 0), line, 0),
    }
}

// Notes a claim, and keeps what it reports.
fn take_claim(
    tally: &mut MarkTally,
    basis: &Basis<'_>,
    known: &mut Known,
    frame: &Frame,
    packet: Option<Packet>,
    line: u64,
) -> Result<(), AllocError>
    requires { is_claim frame.now ≡ true }
    ensures { OnOk result ((claims : HeardClaims) → KnowsClaims (settings_of basis.now) known.old claims
        → KnowsClaims (settings_of basis.now) known.new (claims_behind (settings_of basis.now) frame.now claims)
        × Notes tally.old tally.new (frame_noted (settings_of basis.now) claims frame.now packet line)) }
{
    let name = carried_name(frame).to_bits();
    let claimant = unit_named(basis.plan, name);
    note_claim(tally, basis, known, frame, name, line, claimant)?;
    known.hear(basis, claimant, frame.ident.sa, name);
    Ok(())
}

// Notes a frame that is no claim.
fn take_other(
    tally: &mut MarkTally,
    basis: &Basis<'_>,
    known: &Known,
    frame: &Frame,
    packet: Option<Packet>,
    line: u64,
) -> Result<(), AllocError>
    requires { is_claim frame.now ≡ false }
    ensures { OnOk result ((claims : HeardClaims) → KnowsClaims (settings_of basis.now) known.now claims
        → Notes tally.old tally.new (frame_noted (settings_of basis.now) claims frame.now packet line)) }
{
    let source = frame.ident.sa;
    if source >= NULL_ADDRESS {
        return Ok(());
    }
    let sender = sender_at(basis, known, source);
    note_sent(tally, basis, known, frame, packet, line, sender)
}

/// Notes what there is to a frame that is this transport packet, if it is one, and keeps what it claims.
pub(crate) fn take_frame(
    tally: &mut MarkTally,
    basis: &Basis<'_>,
    known: &mut Known,
    frame: &Frame,
    packet: Option<Packet>,
    line: u64,
) -> Result<(), AllocError>
    ensures { OnOk result ((claims : HeardClaims) → KnowsClaims (settings_of basis.now) known.old claims
        → KnowsClaims (settings_of basis.now) known.new (claims_behind (settings_of basis.now) frame.now claims)
        × Notes tally.old tally.new (frame_noted (settings_of basis.now) claims frame.now packet line)) }
{
    if claims_address(frame) {
        return take_claim(tally, basis, known, frame, packet, line);
    }
    if cannot_claim(frame) {
        return take_claim(tally, basis, known, frame, packet, line);
    }
    take_other(tally, basis, known, frame, packet, line)
}
