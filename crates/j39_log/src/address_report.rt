//! What the read command reports of a log: the planned groups in its frames and messages, by addresses.
ghost use Rattle.std.specs.Prelude.{◌≡◌, ℕ, List, [], ◌∷◌, ◌++◌, Option, Some, OnOk};
ghost use Rattle.j39_tp.specs.Packets.{InRange};
ghost use Rattle.j39_log.specs.PairListeners.{AreAllInRange, HaveHeard, IsInRange};
ghost use Rattle.j39_log.specs.LogFrames.{IsHeardAs, planned};
ghost use Rattle.j39_log.specs.LogPairs.{Seen};
ghost use Rattle.j39_log.specs.ReadText.{IsFrameReport, IsGroupReport, counts_line};
ghost use Rattle.j39_tp.specs.declared.packet.Packet.{Packet as APacket};

use crate::group_report::write_group_line;
use crate::groups::Groups;
use crate::line_counts::LineCounts;
use crate::listeners::{Listeners, listen};
use crate::log_report::LogReport;
use crate::readings::write_group_readings;
use crate::transport::transport_packet;
use j39_id::{Frame, Ident, read_frame};
use j39_text::{TextBuffer, WriteResult};
use j39_tp::{Packet, listener_completes_what_is_carried};
use std::alloc::Global;

/// What the read command keeps of a log: what each two addresses heard.
#[derive(Drop)]
pub(crate) struct AddressReport {
    listeners: Listeners,
}

// The report of a planned group, which most frames of a log have.
#[inline(always)]
fn write_group(
    text: &mut TextBuffer,
    groups: &Groups<'_>,
    place: usize,
    ident: Ident,
    bytes: &[u8],
) -> WriteResult
    requires { (pgn : ℕ) × (planned groups.now pgn bytes.now ≡ Some place) }
    ensures { OnOk result ((piece : List ℕ) × IsGroupReport groups.now (Some place) ident bytes.now piece
        × (text.new ≡ text.old ++ piece)) }
{
    write_group_line(text, groups.head(place), ident, bytes)?;
    write_group_readings(text, groups, place, bytes)
}

// The report of a message, where a group is planned of its number and length.
fn write_planned(
    text: &mut TextBuffer,
    groups: &Groups<'_>,
    ident: Ident,
    pgn: u32,
    bytes: &[u8],
) -> WriteResult
    ensures { OnOk result ((piece : List ℕ)
        × IsGroupReport groups.now (planned groups.now pgn bytes.now) ident bytes.now piece
        × (text.new ≡ text.old ++ piece)) }
{
    match groups.place(pgn, bytes) {
        Some(place) => write_group(text, groups, place, ident, bytes),
        None => Ok(()),
    }
}

// What is written at a transport packet.
fn write_packet(
    text: &mut TextBuffer,
    listeners: &mut Listeners,
    groups: &Groups<'_>,
    frame: &Frame,
    packet: &Packet,
) -> WriteResult
    requires { InRange packet.now }
    ensures heard { OnOk result ((seen : List Seen) → HaveHeard listeners.old.rows.items seen
        → HaveHeard listeners.new.rows.items (seen ++ record { frame = frame.now; packet = Some packet.now } ∷ [])) }
    ensures message { OnOk result ((seen : List Seen) → HaveHeard listeners.old.rows.items seen → AreAllInRange seen
        → (piece : List ℕ) × IsFrameReport groups.now seen frame.now (Some packet.now) piece
        × (text.new ≡ text.old ++ piece)) }
{
    listener_completes_what_is_carried();
    let ident = frame.ident;
    match listen(listeners, ident, packet)? {
        Some(pgn) => {
            let bytes = listeners.bytes(ident.sa, ident.ps);
            write_planned(text, groups, ident, pgn.number(), bytes)
        }
        None => Ok(()),
    }
}

// What is written at a frame.
fn write_frame(
    text: &mut TextBuffer,
    listeners: &mut Listeners,
    groups: &Groups<'_>,
    frame: &Frame,
) -> WriteResult
    ensures { OnOk result ((seen : List Seen) → HaveHeard listeners.old.rows.items seen → AreAllInRange seen
        → (packet : Option APacket) × (piece : List ℕ) × IsHeardAs groups.now frame.now packet × IsInRange packet
        × IsFrameReport groups.now seen frame.now packet piece
        × HaveHeard listeners.new.rows.items (seen ++ record { frame = frame.now; packet = packet } ∷ [])
        × (text.new ≡ text.old ++ piece)) }
{
    let bytes = frame.payload.as_slice();
    if let Some(place) = groups.place(frame.ident.pgn().number(), bytes) {
        return write_group(text, groups, place, frame.ident, bytes);
    }
    match transport_packet(frame) {
        Some(packet) => write_packet(text, listeners, groups, frame, &packet),
        None => Ok(()),
    }
}

// Writes the counts of lines.
#[tactic(auto, unfolding(crate::specs::ReadText::counts_line, crate::specs::LineCounting::counts_text))]
fn write_counts(counts: &LineCounts, text: &mut TextBuffer) -> WriteResult
    ensures { OnOk result (text.new ≡ text.old ++ counts_line counts.now.frames counts.now.skipped counts.now.bad) }
{
    counts.write(text)?;
    text.end_line()
}

impl AddressReport {
    pub fn new(alloc: Global) -> Self
        ensures { HaveHeard result.listeners.rows.items [] }
    {
        AddressReport {
            listeners: Listeners::new(alloc),
        }
    }
}

impl LogReport for AddressReport {
    ghost use Rattle.j39_log.specs.ReadText.{IsLogText};
    ghost use Rattle.j39_log.specs.inside.ReadSoFar.{HasReadLines, long_line_read, read_lines_end};

    ghost has_reported = { λ report plan counts ls reports. HasReadLines plan report.listeners counts ls reports };

    ghost is_log_text = { λ _ plan log text. IsLogText plan log text };

    fn read_line(
        &mut self,
        groups: &Groups<'_>,
        _number: u64,
        line: &[u8],
        counts: &mut LineCounts,
        text: &mut TextBuffer,
    ) -> WriteResult {
        match read_frame(line) {
            Ok(frame) => {
                counts.frames += 1;
                write_frame(text, &mut self.listeners, groups, &frame)
            }
            Err(error) => {
                counts.pass_over(error);
                Ok(())
            }
        }
    }

    fn write_end(
        &self,
        _groups: &Groups<'_>,
        counts: &LineCounts,
        text: &mut TextBuffer,
    ) -> WriteResult {
        write_counts(counts, text)
    }

    ghost long_line = { λ report plan counts ls reports read.
        long_line_read plan report.listeners counts ls reports read };

    ghost ends = { λ report plan counts ls reports read. read_lines_end plan report.listeners counts ls reports read };
}
