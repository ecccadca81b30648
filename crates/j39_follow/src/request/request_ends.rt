//! How often what was asked was answered.
ghost use Rattle.std.specs.Prelude.{◌≡◌, ◌++◌, List, OnOk};
ghost use Rattle.j39_follow.specs.FollowText.{exchange_text, request_end_line, request_ends};
ghost use Rattle.j39_follow.specs.declared.request.event.Event.{Event as AnEvent};
ghost use Rattle.j39_follow.specs.inside.Exchanging.{AreExchanges};

use crate::flow::endings::write_route;
use crate::request::exchange::Exchange;
use crate::request::exchanges::Exchanges;
use j39_network::{Plan, RequestPlan};
use j39_text::{TextBuffer, WriteResult};

#[tactic(auto, unfolding(crate::specs::FollowText::exchange_text))]
fn write_exchange(text: &mut TextBuffer, exchange: Exchange) -> WriteResult
    ensures { OnOk result (text.new ≡ text.old ++ exchange_text exchange.asked exchange.answered exchange.refused) }
{
    text.field(" asked ", exchange.asked)?;
    text.field(" answered ", exchange.answered)?;
    text.field(" refused ", exchange.refused)?;
    text.end_line()
}

#[tactic(auto, unfolding(crate::specs::FollowText::request_end_line))]
fn write_request_end(
    text: &mut TextBuffer,
    plan: &Plan,
    place: usize,
    request: &RequestPlan,
    exchange: Exchange,
) -> WriteResult
    ensures { OnOk result (text.new ≡ text.old
        ++ request_end_line plan.now place request.now exchange.asked exchange.answered exchange.refused) }
{
    text.place("request ", place)?;
    write_route(text, plan, request.group, request.sender, request.to)?;
    write_exchange(text, exchange)
}

/// Writes how often each request was asked, answered and refused.
pub(crate) fn write_requests(
    text: &mut TextBuffer,
    plan: &Plan,
    exchanges: &Exchanges,
) -> WriteResult
    ensures { OnOk result ((events : List AnEvent) → AreExchanges plan.now exchanges.now events
        → text.new ≡ text.old ++ request_ends plan.now events) }
{
    for place in 0..plan.requests.len() {
        let request = &plan.requests[place];
        write_request_end(text, plan, place, request, exchanges.exchange(place))?;
    }
    Ok(())
}
