//! What is written first at a frame: what it reports of addresses, or what it asks for.
ghost use Rattle.std.specs.Prelude.{◌≡◌, ◌++◌, ℕ, List, Option, length, OnOk};
ghost use Rattle.j39_follow.specs.Contests.{Timed};
ghost use Rattle.j39_follow.specs.FollowReports.{IsAsked, IsNotice, IsWay, cannot_text, claim_text};
ghost use Rattle.j39_follow.specs.FollowReports.{asked_line as request_line};
ghost use Rattle.j39_follow.specs.inside.Contesting.{ShowsAsker, ShowsParties};
ghost use Rattle.j39_follow.specs.inside.Reporting.{front_of};

use crate::address::known_parties::Parties;
use crate::address::party_text::{write_identity, write_named, write_way};
use crate::flow::group_line::sending_of;
use crate::line::stamp::{Stamp, write_stamp};
use crate::message::in_frame;
use crate::request::acknowledgement::{acknowledges, write_acknowledgement};
use crate::request::asking::{asked_request, write_asked};
use j39_id::{Frame, cannot_claim, carried_name, claims_address, requested_group, requests_group};
use j39_network::Plan;
use j39_text::{TextBuffer, WriteResult};

#[tactic(auto, unfolding(crate::specs::FollowReports::claim_text))]
fn write_claim(
    text: &mut TextBuffer,
    plan: &Plan,
    stamp: Stamp<'_>,
    name: u64,
    address: u8,
) -> WriteResult
    ensures { OnOk result (text.new ≡ text.old ++ claim_text plan.now (front_of stamp.entry) name address) }
{
    write_stamp(text, stamp)?;
    text.word("claim ")?;
    write_named(text, plan, name)?;
    text.field("@", address)?;
    write_identity(text, plan, name)?;
    text.end_line()
}

#[tactic(auto, unfolding(crate::specs::FollowReports::cannot_text))]
fn write_cannot(text: &mut TextBuffer, plan: &Plan, stamp: Stamp<'_>, name: u64) -> WriteResult
    ensures { OnOk result (text.new ≡ text.old ++ cannot_text plan.now (front_of stamp.entry) name) }
{
    write_stamp(text, stamp)?;
    text.word("cannot ")?;
    write_named(text, plan, name)?;
    write_identity(text, plan, name)?;
    text.end_line()
}

fn write_request(
    text: &mut TextBuffer,
    plan: &Plan,
    parties: &Parties,
    stamp: Stamp<'_>,
    frame: &Frame,
) -> WriteResult
    requires { length frame.now.payload.items ≡ 3 }
    ensures { OnOk result ((log : List Timed) → ShowsParties plan.now parties.now log frame.now.ident
        → (way : List ℕ) × (asked : Option ℕ) × IsWay plan.now log frame.now.ident way
        × IsAsked plan.now log frame.now asked
        × (text.new ≡ text.old ++ request_line (front_of stamp.entry) frame.now way asked)) }
{
    let number = requested_group(frame);
    write_stamp(text, stamp)?;
    text.field("request ", number)?;
    write_way(text, plan, parties, frame.ident)?;
    write_asked(
        text,
        asked_request(plan, number, sending_of(parties, in_frame(frame))),
    )?;
    text.end_line()
}

/// Writes what a frame reports of addresses, or what it asks for.
pub(crate) fn write_notice(
    text: &mut TextBuffer,
    plan: &Plan,
    parties: &Parties,
    stamp: Stamp<'_>,
    frame: &Frame,
) -> WriteResult
    ensures { OnOk result ((log : List Timed) → ShowsParties plan.now parties.now log frame.now.ident
        → ShowsAsker plan.now parties.now log frame.now
        → (piece : List ℕ) × IsNotice plan.now log (front_of stamp.entry) frame.now piece
        × (text.new ≡ text.old ++ piece)) }
{
    if claims_address(frame) {
        write_claim(
            text,
            plan,
            stamp,
            carried_name(frame).to_bits(),
            frame.ident.sa,
        )
    } else if cannot_claim(frame) {
        write_cannot(text, plan, stamp, carried_name(frame).to_bits())
    } else if requests_group(frame) {
        write_request(text, plan, parties, stamp, frame)
    } else if acknowledges(plan, frame) {
        write_acknowledgement(text, plan, parties, stamp, frame)
    } else {
        Ok(())
    }
}
