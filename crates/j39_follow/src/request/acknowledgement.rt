//! Acknowledgements: what units answer to requests beside the groups themselves (SAE J1939-21).
ghost use Rattle.std.specs.Prelude.{◌≡◌, ◌++◌, ℕ, List, length, true, OnOk};
ghost use Rattle.std.specs.Option.{option_copied};
ghost use Rattle.j39_follow.specs.Contests.{Timed};
ghost use Rattle.j39_follow.specs.FollowReports.{IsAnswerWay, answer_line, answer_text, answer_way_text};
ghost use Rattle.j39_follow.specs.LoggedRequests.{acknowledged_group, acknowledges, asker_address, control_of};
ghost use Rattle.j39_follow.specs.LoggedRequests.{control_word, is_acknowledgement, is_refusal, asker_or_source};
ghost use Rattle.j39_follow.specs.inside.Contesting.{ShowsAsker, ShowsParties};
ghost use Rattle.j39_follow.specs.inside.Recounting.{HasNames, party_at};
ghost use Rattle.j39_follow.specs.inside.Reporting.{front_of};

use crate::address::known_parties::Parties;
use crate::address::party_text::write_answer_way;
use crate::line::stamp::{Stamp, write_stamp};
use j39_id::services::ACKNOWLEDGEMENT;
use j39_id::{Frame, number_of_bytes};
use j39_network::Plan;
use j39_text::{TextBuffer, WriteResult};

fn is_acknowledgement(frame: &Frame) -> bool
    ensures same { result ≡ is_acknowledgement frame.now }
    ensures eight { result ≡ true → length frame.now.payload.items ≡ 8 }
{
    frame.ident.edp == 0 && frame.ident.pgn() == ACKNOWLEDGEMENT && frame.payload.len() == 8
}

/// Whether a frame is an acknowledgement, in the log of a plan that has requests.
pub(crate) fn acknowledges(plan: &Plan, frame: &Frame) -> bool
    ensures same { result ≡ acknowledges plan.now frame.now }
    ensures eight { result ≡ true → length frame.now.payload.items ≡ 8 }
{
    !plan.requests.is_empty() && is_acknowledgement(frame)
}

// The control byte.
fn control_of(frame: &Frame) -> u8
    requires { length frame.now.payload.items ≡ 8 }
    ensures { result ≡ control_of frame.now }
{
    frame.payload.as_slice()[0]
}

/// Whether an acknowledgement says that the group doesn't come.
pub(crate) fn is_refusal(frame: &Frame) -> bool
    requires { length frame.now.payload.items ≡ 8 }
    ensures { result ≡ is_refusal frame.now }
{
    let control = control_of(frame);
    0 < control && control < 4
}

/// The address of the unit that asked.
pub(crate) fn asker_address(frame: &Frame) -> u8
    requires { length frame.now.payload.items ≡ 8 }
    ensures { result ≡ asker_address frame.now }
{
    frame.payload.as_slice()[4]
}

/// The address of which an acknowledgement speaks, else the frame's source.
pub(crate) fn asker_or_source(plan: &Plan, frame: &Frame) -> u8
    ensures { result ≡ asker_or_source plan.now frame.now }
{
    if acknowledges(plan, frame) {
        asker_address(frame)
    } else {
        frame.ident.sa
    }
}

/// The group that was asked for.
pub(crate) fn acknowledged_group(frame: &Frame) -> u32
    requires { length frame.now.payload.items ≡ 8 }
    ensures { result ≡ acknowledged_group frame.now }
{
    let payload = frame.payload.as_slice();
    number_of_bytes([payload[5], payload[6], payload[7]])
}

// What an acknowledgement says, if it is known.
#[tactic(auto, unfolding(crate::specs::LoggedRequests::control_word))]
fn control_word(control: u8) -> Option<&'static str>
    ensures { option_copied result ≡ control_word control }
{
    match control {
        0 => Some("acknowledged "),
        1 => Some("refused "),
        2 => Some("denied "),
        3 => Some("busy "),
        _ => None,
    }
}

// Writes an acknowledgement that says this.
#[tactic(auto, unfolding(crate::specs::FollowReports::answer_text))]
fn write_answer(
    text: &mut TextBuffer,
    plan: &Plan,
    parties: &Parties,
    stamp: Stamp<'_>,
    frame: &Frame,
    word: &str,
) -> WriteResult
    requires { length frame.now.payload.items ≡ 8 }
    ensures { OnOk result (HasNames plan.now parties.now.all parties.now.names → text.new ≡ text.old
        ++ answer_text (front_of stamp.entry) word.now frame.now (answer_way_text plan.now
        (party_at parties.now.all frame.now.ident.sa) frame.now.ident.sa
        (party_at parties.now.all (asker_address frame.now)) (asker_address frame.now))) }
{
    write_stamp(text, stamp)?;
    text.field(word, acknowledged_group(frame))?;
    write_answer_way(text, plan, parties, frame.ident.sa, asker_address(frame))?;
    text.end_line()
}

/// Writes an acknowledgement, if anything is known of its control byte.
pub(crate) fn write_acknowledgement(
    text: &mut TextBuffer,
    plan: &Plan,
    parties: &Parties,
    stamp: Stamp<'_>,
    frame: &Frame,
) -> WriteResult
    requires acknowledged { acknowledges plan.now frame.now ≡ true }
    requires eight { length frame.now.payload.items ≡ 8 }
    ensures { OnOk result ((log : List Timed) → ShowsParties plan.now parties.now log frame.now.ident
        → ShowsAsker plan.now parties.now log frame.now
        → (way : List ℕ) × IsAnswerWay plan.now log frame.now way
        × (text.new ≡ text.old ++ answer_line (front_of stamp.entry) frame.now way)) }
{
    match control_word(control_of(frame)) {
        Some(word) => write_answer(text, plan, parties, stamp, frame, word),
        None => Ok(()),
    }
}
