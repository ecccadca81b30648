//! The line of a frame of which nothing else is written.
ghost use Rattle.std.specs.Prelude.{◌≡◌, ◌++◌, ℕ, List, OnOk};
ghost use Rattle.j39_follow.specs.Contests.{Timed};
ghost use Rattle.j39_follow.specs.FollowReports.{IsWay, priority_and_bytes, frame_line};
ghost use Rattle.j39_follow.specs.inside.Contesting.{ShowsParties};
ghost use Rattle.j39_follow.specs.inside.Reporting.{front_of};

use crate::address::known_parties::Parties;
use crate::address::party_text::write_way;
use crate::line::stamp::{Stamp, write_stamp};
use j39_id::Frame;
use j39_network::Plan;
use j39_text::{TextBuffer, WriteResult};

#[tactic(auto, unfolding(crate::specs::FollowReports::priority_and_bytes))]
fn write_end(text: &mut TextBuffer, frame: &Frame) -> WriteResult
    ensures { OnOk result (text.new ≡ text.old ++ priority_and_bytes frame.now) }
{
    text.field(" priority ", frame.ident.priority)?;
    text.word(" bytes ")?;
    text.hex(frame.payload.as_slice())?;
    text.end_line()
}

/// Writes a frame by the number of its group, from whom to whom it goes, its priority and its bytes.
#[inline(never)]
pub(crate) fn write_bare(
    text: &mut TextBuffer,
    plan: &Plan,
    parties: &Parties,
    stamp: Stamp<'_>,
    frame: &Frame,
) -> WriteResult
    ensures { OnOk result ((log : List Timed) → ShowsParties plan.now parties.now log frame.now.ident
        → (way : List ℕ) × IsWay plan.now log frame.now.ident way
        × (text.new ≡ text.old ++ frame_line (front_of stamp.entry) way frame.now)) }
{
    let pgn = frame.ident.pgn().number();
    write_stamp(text, stamp)?;
    text.field("frame ", pgn)?;
    write_way(text, plan, parties, frame.ident)?;
    write_end(text, frame)
}
