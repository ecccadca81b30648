//! What frames report of the requests of a plan.
ghost use Rattle.std.specs.Prelude.{◌≡◌, ◌+◌, ◌^◌, ◌<◌, ◌∷◌, List, length, option_map};
ghost use Rattle.std.specs.Option.{option_to_list};
ghost use Rattle.j39_follow.specs.Contests.{Timed};
ghost use Rattle.j39_follow.specs.FollowReports.{aim_at as aim_at_unit, answer_aim as aim_of_answer, notice_events};
ghost use Rattle.j39_follow.specs.FollowReports.{brought_by, refusal_events, reply_of};
ghost use Rattle.j39_follow.specs.LoggedRequests.{asked_request as asked_request_of};
ghost use Rattle.j39_follow.specs.LoggedRequests.{counted_number as number_that_counts};
ghost use Rattle.j39_id.specs.FrameMeaning.{requested_group};
ghost use Rattle.j39_follow.specs.Who.{unit_of};
ghost use Rattle.j39_follow.specs.declared.request.event.Event.{Event as AnEvent};
ghost use Rattle.j39_follow.specs.declared.request.event.Event.TheVariants.{Asked, Brought};
ghost use Rattle.j39_follow.specs.declared.message.Sort.{Sort as ASort};
ghost use Rattle.j39_follow.specs.inside.Contesting.{ShowsAsker, ShowsParties};
ghost use Rattle.j39_follow.specs.inside.Exchanging.{AreExchanges, AreNoted};

use crate::address::known_parties::Parties;
use crate::address::who::Who;
use crate::flow::group_line::sending_of;
use crate::flow::sending::{Aim, Sending};
use crate::message::{Sort, ended_message, in_frame};
use crate::request::acknowledgement::{
    acknowledged_group, acknowledges, asker_or_source, is_refusal,
};
use crate::request::asking::{asked_request, number_of_group};
use crate::request::event::{Event, Reply};
use crate::request::exchanges::Exchanges;
use j39_id::addresses::GLOBAL_ADDRESS;
use j39_id::{Frame, requested_group, requests_group};
use j39_network::Plan;

// Whom a message is for that is for this one.
fn aim_at(who: Who) -> Aim
    ensures { result ≡ aim_at_unit (unit_of who) }
{
    match who.unit() {
        Some(unit) => Aim::One(unit),
        None => Aim::Neither,
    }
}

// For whom an acknowledgement is that names this address, behind which this one stands.
fn answer_aim(address: u8, asker: Who) -> Aim
    ensures { result ≡ aim_of_answer address asker }
{
    if address == GLOBAL_ADDRESS {
        Aim::All
    } else {
        aim_at(asker)
    }
}

// The request that a frame asks.
fn asked(plan: &Plan, frame: &Frame, sent: Sending) -> Option<Event>
    requires { length frame.now.payload.items ≡ 3 }
    ensures { result ≡ option_map Asked (asked_request_of plan.now (requested_group frame.now) sent) }
{
    match asked_request(plan, requested_group(frame), sent) {
        Some(place) => Some(Event::Asked(place)),
        None => None,
    }
}

// What an acknowledgement refuses.
fn refused(plan: &Plan, frame: &Frame, sent: Sending, asker: Who) -> Option<Event>
    requires { length frame.now.payload.items ≡ 8 }
    ensures { option_to_list result ≡ refusal_events plan.now frame.now sent asker }
{
    if !is_refusal(frame) {
        return None;
    }
    Some(Event::Refused(Reply {
        number: acknowledged_group(frame),
        sender: sent.sender,
        aim: answer_aim(asker_or_source(plan, frame), asker),
    }))
}

// What a frame asks or refuses, beside the messages that it brings.
fn noticed(plan: &Plan, frame: &Frame, sent: Sending, asker: Who) -> Option<Event>
    ensures { option_to_list result ≡ notice_events plan.now frame.now sent asker }
{
    if requests_group(frame) {
        return asked(plan, frame, sent);
    }
    if acknowledges(plan, frame) {
        return refused(plan, frame, sent, asker);
    }
    None
}

// The number of what a message counts as.
fn number_of(plan: &Plan, sort: Sort) -> u32
    ensures { result ≡ number_that_counts plan.now sort }
{
    match sort {
        Sort::Grouped(group, _) => number_of_group(plan, group),
        Sort::Other(pgn) => pgn,
    }
}

// The event that a message is.
fn brought(plan: &Plan, sent: Sending, sort: Sort) -> Event
    ensures { result ≡ brought_by plan.now sent sort }
{
    Event::Brought(Reply {
        number: number_of(plan, sort),
        sender: sent.sender,
        aim: sent.aim,
    })
}

// The event that a message is, if there is one.
fn brought_any(plan: &Plan, sent: Sending, sort: Option<Sort>) -> Option<Event>
    ensures { result ≡ option_map (brought_by plan.now sent) sort }
{
    match sort {
        Some(sort) => Some(brought(plan, sent, sort)),
        None => None,
    }
}

/// Notes what a frame reports of requests: what it asks or refuses, what it is, and the message that it ends.
#[inline(never)]
pub(crate) fn note(
    exchanges: &mut Exchanges,
    plan: &Plan,
    parties: &Parties,
    frame: &Frame,
    sort: Sort,
    ended: Option<Sort>,
)
    ensures { (log : List Timed) (events : List AnEvent) → ShowsParties plan.now parties.now log frame.now.ident
        → ShowsAsker plan.now parties.now log frame.now → length events + 3 < 2 ^ 64
        → AreExchanges plan.now exchanges.old events
        → AreNoted plan.now log frame.now (sort ∷ option_to_list ended) events exchanges.new }
{
    let sent = sending_of(parties, in_frame(frame));
    let asker = parties.party(asker_or_source(plan, frame));
    exchanges.hear_any(plan, noticed(plan, frame, sent, asker));
    exchanges.hear(plan, brought(plan, sent, sort));
    let way = sending_of(parties, ended_message(frame));
    exchanges.hear_any(plan, brought_any(plan, way, ended));
}
