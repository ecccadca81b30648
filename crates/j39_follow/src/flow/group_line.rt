//! The report of a message: who sent which group to whom, and what it reads.
ghost use Rattle.std.specs.Prelude.{◌≡◌, ◌++◌, ◌&&◌, ℕ, List, if◌then◌else◌, is_some, IfOk, OnOk};
ghost use Rattle.j39_network.specs.declared.plan.Plan.{Plan as APlan};
ghost use Rattle.j39_id.specs.Pgn.{is_pdu2};
ghost use Rattle.j39_log.specs.ReportHeads.{report_head};
ghost use Rattle.j39_follow.specs.Contests.{IsTaken, Timed};
ghost use Rattle.j39_follow.specs.FollowReports.{IsMessageReport, IsSendingOf, IsWay, aim_at, flow_word, message_line};
ghost use Rattle.j39_follow.specs.FollowReports.{is_to_all as goes_to_all, priority_text, sent_text};
ghost use Rattle.j39_follow.specs.Who.{unit_of};
ghost use Rattle.j39_follow.specs.declared.flow.sending.Aim.TheVariants as aims;
ghost use Rattle.j39_follow.specs.declared.address.who.Who.{Who as AWho};
ghost use Rattle.j39_follow.specs.inside.Contesting.{ShowsParties};
ghost use Rattle.j39_follow.specs.inside.Reporting.{front_of, arrived_message};

use crate::address::known_parties::Parties;
use crate::address::party_text::{is_to_all, write_parties};
use crate::flow::sending::{Aim, Sending, flow_of, group_of};
use crate::line::stamp::{Stamp, write_stamp};
use crate::message::{Arrival, Sort};
use j39_id::{PDU2_FIRST, pf_of};
use j39_log::{Groups, write_digits, write_group_readings};
use j39_network::{GroupPlan, Plan};
use j39_text::{TextBuffer, WriteResult};
use std::alloc::AllocError;

// Whom a message went to.
fn aim_of(parties: &Parties, message: Arrival<'_>) -> Aim
    ensures { (plan : APlan) (log : List Timed) → ShowsParties plan parties.now log message.entry.ident
        → (receiver : AWho) × IsTaken plan log message.entry.ident.ps receiver
        × (result ≡ (if goes_to_all message.entry.ident then aims.All else aim_at (unit_of receiver))) }
{
    if is_to_all(message.ident) {
        return Aim::All;
    }
    match parties.receiver(message.ident).unit() {
        Some(unit) => Aim::One(unit),
        None => Aim::Neither,
    }
}

// Whether a message came in one frame that names no destination.
fn is_unaddressed(message: Arrival<'_>) -> bool
    ensures { result ≡ (is_some message.entry.framed && is_pdu2 message.entry.pgn) }
{
    message.framed.is_some() && pf_of(message.pgn) >= PDU2_FIRST
}

/// Who sent a message, to whom.
pub(crate) fn sending_of(parties: &Parties, message: Arrival<'_>) -> Sending
    ensures { (plan : APlan) (log : List Timed) → ShowsParties plan parties.now log message.entry.ident
        → IsSendingOf plan log (arrived_message message.entry) result }
{
    Sending {
        sender: parties.source(message.ident).unit(),
        aim: aim_of(parties, message),
        unaddressed: is_unaddressed(message),
    }
}

#[tactic(auto, unfolding(crate::specs::FollowReports::flow_word))]
fn write_flow(text: &mut TextBuffer, flow: Option<usize>) -> WriteResult
    ensures { OnOk result (text.new ≡ text.old ++ flow_word flow) }
{
    match flow {
        Some(flow) => text.place(" flow ", flow),
        None => text.word(" no flow"),
    }
}

// Writes the priority of a frame that isn't its group's.
#[tactic(auto, unfolding(crate::specs::FollowReports::priority_text))]
fn write_priority(text: &mut TextBuffer, planned: u8, framed: Option<u8>) -> WriteResult
    ensures { OnOk result (text.new ≡ text.old ++ priority_text planned framed) }
{
    match framed {
        Some(priority) => {
            if priority == planned {
                Ok(())
            } else {
                text.field(" priority ", priority)
            }
        }
        None => Ok(()),
    }
}

#[tactic(auto, unfolding(crate::specs::FollowReports::sent_text))]
fn write_sent(
    text: &mut TextBuffer,
    group: &GroupPlan,
    flow: Option<usize>,
    message: Arrival<'_>,
) -> WriteResult
    ensures { OnOk result (text.new ≡ text.old ++ sent_text group.now flow (arrived_message message.entry)) }
{
    write_flow(text, flow)?;
    write_priority(text, group.priority, message.framed)?;
    text.word(" bytes ")?;
    write_digits(text, message.bytes)?;
    text.end_line()
}

fn write_group_line(
    text: &mut TextBuffer,
    plan: &Plan,
    parties: &Parties,
    stamp: Stamp<'_>,
    group: &GroupPlan,
    head: &[u8],
    flow: Option<usize>,
    message: Arrival<'_>,
) -> WriteResult
    requires { head.now ≡ report_head group.now }
    ensures { OnOk result ((log : List Timed) → ShowsParties plan.now parties.now log message.entry.ident
        → (way : List ℕ) × IsWay plan.now log message.entry.ident way
        × (text.new ≡ text.old
        ++ message_line group.now (front_of stamp.entry) way flow (arrived_message message.entry))) }
{
    write_stamp(text, stamp)?;
    text.bytes(head)?;
    write_parties(text, plan, parties, message.ident)?;
    write_sent(text, group, flow, message)
}

/// Writes the report of a message, if it is a group, and reports what it counts as.
pub(crate) fn write_message(
    text: &mut TextBuffer,
    groups: &Groups<'_>,
    parties: &Parties,
    stamp: Stamp<'_>,
    message: Arrival<'_>,
) -> Result<Sort, AllocError>
    ensures { IfOk result (λ sort. (log : List Timed) → ShowsParties groups.now parties.now log message.entry.ident
        → (piece : List ℕ)
        × IsMessageReport groups.now log (front_of stamp.entry) (arrived_message message.entry) sort piece
        × (text.new ≡ text.old ++ piece)) }
{
    let sent = sending_of(parties, message);
    let Some(group) = group_of(groups, message.pgn, message.bytes, sent) else {
        return Ok(Sort::Other(message.pgn));
    };
    let flow = flow_of(groups, group, sent);
    write_group_line(
        text,
        groups.plan(),
        parties,
        stamp,
        groups.group(group),
        groups.head(group),
        flow,
        message,
    )?;
    write_group_readings(text, groups, group, message.bytes)?;
    Ok(Sort::Grouped(group, flow))
}
