//! What frames ask for, by the requests of the plan.
ghost use Rattle.std.specs.Prelude.{◌≡◌, ◌<◌, ◌++◌, length, OnOk};
ghost use Rattle.j39_follow.specs.LoggedRequests.{asked_number, asked_request, asked_text, is_aimed_so, is_asked_by};
ghost use Rattle.j39_follow.specs.LoggedRequests.{number_of_group};

use crate::flow::sending::{Aim, Sending, is_sender};
use j39_network::{Plan, RequestPlan, To};
use j39_text::{TextBuffer, WriteResult};

/// The number of the group at a place, 0 where there is none.
pub(crate) fn number_of_group(plan: &Plan, place: usize) -> u32
    ensures { result ≡ number_of_group plan.now place }
{
    if place < plan.groups.len() {
        plan.groups[place].pgn
    } else {
        0
    }
}

/// The number of the group that a request asks for.
pub(crate) fn asked_number(plan: &Plan, request: &RequestPlan) -> u32
    ensures { result ≡ asked_number plan.now request.now }
{
    number_of_group(plan, request.group)
}

// Whether it goes to all, or to this one unit.
fn is_aimed_so(to: To, aim: Aim) -> bool
    ensures { result ≡ is_aimed_so to aim }
{
    match (to, aim) {
        (To::All, Aim::All) => true,
        (To::One(unit), Aim::One(receiver)) => unit == receiver,
        _ => false,
    }
}

// Whether a request fits a frame that asks for a group.
fn is_asked_by(plan: &Plan, number: u32, sent: Sending, request: &RequestPlan) -> bool
    ensures { result ≡ is_asked_by plan.now number sent request.now }
{
    asked_number(plan, request) == number
        && is_sender(sent.sender, request.sender)
        && is_aimed_so(request.to, sent.aim)
}

/// The first request that fits a frame that asks for a group, by its place.
pub(crate) fn asked_request(plan: &Plan, number: u32, sent: Sending) -> Option<usize>
    ensures { result ≡ asked_request plan.now number sent }
{
    plan.requests
        .as_slice()
        .iter()
        .position(|request| is_asked_by(plan, number, sent, request))
}

/// Writes which request of the plan a frame asks, if one fits.
#[tactic(auto, unfolding(crate::specs::LoggedRequests::asked_text))]
pub(crate) fn write_asked(text: &mut TextBuffer, asked: Option<usize>) -> WriteResult
    ensures { OnOk result (text.new ≡ text.old ++ asked_text asked) }
{
    match asked {
        Some(place) => text.place(" request ", place),
        None => Ok(()),
    }
}
