//! What events are to the requests of a plan.
ghost use Rattle.std.specs.Prelude.{◌≡◌};
ghost use Rattle.j39_follow.specs.LoggedRequests.{answers, asks_request as asks, is_of_asked};
ghost use Rattle.j39_follow.specs.LoggedRequests.{is_for_one_unit as is_to_one, reaches_asker, refuses, replies_to};
ghost use Rattle.j39_follow.specs.LoggedRequests.{was_asked};

use crate::flow::sending::Aim;
use crate::request::asking::asked_number;
use crate::request::event::{Event, Reply};
use j39_network::{Plan, RequestPlan, To};

// Whether this unit was asked: of a request to all each other one.
fn was_asked(to: To, asker: usize, unit: usize) -> bool
    ensures { result ≡ was_asked to asker unit }
{
    match to {
        To::All => unit != asker,
        To::One(asked) => unit == asked,
    }
}

fn is_of_asked(request: &RequestPlan, sender: Option<usize>) -> bool
    ensures { result ≡ is_of_asked request.now sender }
{
    match sender {
        Some(unit) => was_asked(request.to, request.sender, unit),
        None => false,
    }
}

// Whether the asker gets it.
fn reaches_asker(request: &RequestPlan, aim: Aim) -> bool
    ensures { result ≡ reaches_asker request.now aim }
{
    match aim {
        Aim::All => true,
        Aim::One(unit) => unit == request.sender,
        Aim::Neither => false,
    }
}

// Whether it is of the group that is asked for, from a unit that was asked, for the asker.
fn replies_to(plan: &Plan, request: &RequestPlan, reply: Reply) -> bool
    ensures { result ≡ replies_to plan.now request.now reply }
{
    reply.number == asked_number(plan, request)
        && is_of_asked(request, reply.sender)
        && reaches_asker(request, reply.aim)
}

fn is_to_one(to: To) -> bool
    ensures { result ≡ is_to_one to }
{
    matches!(to, To::One(_))
}

/// Whether an event asks the request at a place.
pub(crate) fn asks(place: usize, event: Event) -> bool
    ensures { result ≡ asks place event }
{
    match event {
        Event::Asked(asked) => asked == place,
        Event::Brought(_) | Event::Refused(_) => false,
    }
}

/// Whether it brings what is asked for.
pub(crate) fn answers(plan: &Plan, request: &RequestPlan, event: Event) -> bool
    ensures { result ≡ answers plan.now request.now event }
{
    match event {
        Event::Brought(reply) => replies_to(plan, request, reply),
        Event::Asked(_) | Event::Refused(_) => false,
    }
}

/// Whether it refuses it; a request to all can't be refused.
pub(crate) fn refuses(plan: &Plan, request: &RequestPlan, event: Event) -> bool
    ensures { result ≡ refuses plan.now request.now event }
{
    match event {
        Event::Refused(reply) => is_to_one(request.to) && replies_to(plan, request, reply),
        Event::Asked(_) | Event::Brought(_) => false,
    }
}
