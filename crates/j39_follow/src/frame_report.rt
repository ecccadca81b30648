//! What is written at a frame: what it reports, what it is, or a line of its own, and the message that it ends.
ghost use Rattle.std.specs.Prelude.{◌≡◌, ◌++◌, ℕ, List, Some, IfOk, OnOk};
ghost use Rattle.std.specs.Option.{option_to_list};
ghost use Rattle.j39_log.specs.LogPairs.{Seen};
ghost use Rattle.j39_log.specs.PairListeners.{AreAllInRange};
ghost use Rattle.j39_tp.specs.Packets.{InRange};
ghost use Rattle.j39_follow.specs.Contests.{Timed};
ghost use Rattle.j39_follow.specs.FollowText.{IsPacketReport};
ghost use Rattle.j39_tp.specs.declared.packet.Packet.TheVariants.{EndAck as AnEnd};
ghost use Rattle.j39_follow.specs.inside.Collecting.{receipt_in as receipt_of};
ghost use Rattle.j39_follow.specs.inside.FrameWriting.{IsFrameWritten, IsItselfWritten, WritesFrame};
ghost use Rattle.j39_follow.specs.inside.Hearing.{HaveHeardOneMore, HaveHeardSince};
ghost use Rattle.j39_follow.specs.inside.Contesting.{ShowsAsker, ShowsParties};
ghost use Rattle.j39_follow.specs.inside.Reporting.{front_of};

use crate::address::known_parties::Parties;
use crate::bare_frame::write_bare;
use crate::flow::group_line::write_message;
use crate::line::stamp::Stamp;
use crate::message::{Arrival, Sort, in_frame, turned};
use crate::notice::write_notice;
use crate::pair::heard_pairs::HeardPairs;
use crate::request::exchanges::Exchanges;
use crate::request::noting::note;
use j39_id::{Frame, Pgn};
use j39_log::{Groups, transport_packet};
use j39_text::TextBuffer;
use j39_tp::{Packet, Size, listener_completes_what_is_carried};
use std::alloc::AllocError;

// What is written where the receiver of a message says that it has it whole, and what the message counts as.
fn write_received(
    text: &mut TextBuffer,
    pairs: &mut HeardPairs,
    groups: &Groups<'_>,
    parties: &Parties,
    stamp: Stamp<'_>,
    frame: &Frame,
    size: Size,
    pgn: Pgn,
) -> Result<Option<Sort>, AllocError>
    ensures heard { OnOk result ((seen : List Seen) → HaveHeardSince groups.now pairs.old seen
        → HaveHeardOneMore groups.now pairs.new seen (record { frame = frame.now; packet = Some (AnEnd size pgn) })) }
    ensures received { IfOk result (λ ended. (seen : List Seen) (log : List Timed)
        → ShowsParties groups.now parties.now log frame.now.ident
        → HaveHeardSince groups.now pairs.old seen
        → (piece : List ℕ)
        × IsPacketReport groups.now seen log (front_of stamp.entry) frame.now (Some (AnEnd size pgn))
        (option_to_list ended) piece
        × (text.new ≡ text.old ++ piece)) }
{
    let ident = frame.ident;
    let received = pairs.collections.received(ident.ps, ident.sa, size, pgn)?;
    pairs.hear(ident, &Packet::EndAck { size, pgn })?;
    let Some(bytes) = received else {
        return Ok(None);
    };
    let message = Arrival {
        pgn: pgn.number(),
        bytes: bytes.as_slice(),
        ident: turned(ident),
        framed: None,
    };
    let sort = write_message(text, groups, parties, stamp, message)?;
    Ok(Some(sort))
}

// The size and the PGN of the message of which a receiver says by a packet that it has it whole.
fn receipt_in(packet: &Packet) -> Option<(Size, Pgn)>
    ensures { result ≡ receipt_of packet.now }
{
    match *packet {
        Packet::EndAck { size, pgn } => Some((size, pgn)),
        _ => None,
    }
}

// What is written at a transport packet that completes a message in order, or by which a receiver says that it has one
// whole, and what the message counts as.
fn write_packet(
    text: &mut TextBuffer,
    pairs: &mut HeardPairs,
    groups: &Groups<'_>,
    parties: &Parties,
    stamp: Stamp<'_>,
    frame: &Frame,
    packet: &Packet,
) -> Result<Option<Sort>, AllocError>
    requires { InRange packet.now }
    ensures heard { OnOk result ((seen : List Seen) → HaveHeardSince groups.now pairs.old seen
        → HaveHeardOneMore groups.now pairs.new seen (record { frame = frame.now; packet = Some packet.now })) }
    ensures carried { IfOk result (λ ended. (seen : List Seen) (log : List Timed)
        → ShowsParties groups.now parties.now log frame.now.ident
        → HaveHeardSince groups.now pairs.old seen → AreAllInRange seen
        → (piece : List ℕ)
        × IsPacketReport groups.now seen log (front_of stamp.entry) frame.now (Some packet.now)
        (option_to_list ended) piece
        × (text.new ≡ text.old ++ piece)) }
{
    if let Some(receipt) = receipt_in(packet) {
        return write_received(
            text, pairs, groups, parties, stamp, frame, receipt.0, receipt.1,
        );
    }
    listener_completes_what_is_carried();
    let ident = frame.ident;
    let Some(pgn) = pairs.hear(ident, packet)? else {
        return Ok(None);
    };
    let message = Arrival {
        pgn: pgn.number(),
        bytes: pairs.listeners.bytes(ident.sa, ident.ps),
        ident,
        framed: None,
    };
    let sort = write_message(text, groups, parties, stamp, message)?;
    Ok(Some(sort))
}

// What is written of a frame itself, and what it counts as.
#[inline(always)]
fn write_itself(
    all_frames: bool,
    text: &mut TextBuffer,
    groups: &Groups<'_>,
    parties: &Parties,
    stamp: Stamp<'_>,
    frame: &Frame,
) -> Result<Sort, AllocError>
    ensures { IfOk result (λ sort. (log : List Timed) → ShowsParties groups.now parties.now log frame.now.ident
        → ShowsAsker groups.now parties.now log frame.now
        → IsItselfWritten groups.now all_frames log (front_of stamp.entry) frame.now sort text.old text.new) }
{
    let begun = text.len();
    write_notice(text, groups.plan(), parties, stamp, frame)?;
    let sort = write_message(text, groups, parties, stamp, in_frame(frame))?;
    if all_frames && text.len() == begun {
        write_bare(text, groups.plan(), parties, stamp, frame)?;
    }
    Ok(sort)
}

// What is written at a frame whose claim was noted, what it counts as, and what the message counts as that it ends.
#[inline(always)]
fn write_frame(
    all_frames: bool,
    text: &mut TextBuffer,
    pairs: &mut HeardPairs,
    groups: &Groups<'_>,
    parties: &Parties,
    stamp: Stamp<'_>,
    frame: &Frame,
) -> Result<(Sort, Option<Sort>), AllocError>
    ensures { IfOk result (λ sorts. (seen : List Seen) (log : List Timed)
        → ShowsParties groups.now parties.now log frame.now.ident
        → ShowsAsker groups.now parties.now log frame.now → HaveHeardSince groups.now pairs.old seen
        → AreAllInRange seen
        → IsFrameWritten groups.now all_frames pairs.new seen log
        (front_of stamp.entry) frame.now sorts.0 sorts.1 text.old text.new) }
{
    let sort = write_itself(all_frames, text, groups, parties, stamp, frame)?;
    if sort.is_grouped() {
        return Ok((sort, None));
    }
    let Some(packet) = transport_packet(frame) else {
        return Ok((sort, None));
    };
    let ended = write_packet(text, pairs, groups, parties, stamp, frame, &packet)?;
    Ok((sort, ended))
}

/// What is written at a frame whose claim was noted, what it counts as, and what the message counts as that it ends;
/// what it reports of requests is noted, where the plan has any.
#[inline(always)]
pub(crate) fn report_frame(
    all_frames: bool,
    text: &mut TextBuffer,
    pairs: &mut HeardPairs,
    exchanges: &mut Exchanges,
    groups: &Groups<'_>,
    parties: &Parties,
    stamp: Stamp<'_>,
    frame: &Frame,
) -> Result<(Sort, Option<Sort>), AllocError>
    ensures { IfOk result (λ sorts. WritesFrame (λ log. ShowsParties groups.now parties.now log frame.now.ident
        × ShowsAsker groups.now parties.now log frame.now)
        groups.now all_frames (front_of stamp.entry) frame.now sorts pairs.old pairs.new exchanges.old
        exchanges.new text.old text.new) }
{
    let (sort, ended) = write_frame(all_frames, text, pairs, groups, parties, stamp, frame)?;
    if groups.plan().requests.is_empty() {
        return Ok((sort, ended));
    }
    note(exchanges, groups.plan(), parties, frame, sort, ended);
    Ok((sort, ended))
}
