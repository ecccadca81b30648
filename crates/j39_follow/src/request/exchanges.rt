//! How often all requests were asked, answered and refused.
ghost use Rattle.std.specs.Prelude.{◌≡◌, ◌<◌, ◌-◌, ◌^◌, ◌++◌, ◌∷◌, [], ℕ, List, Some, length, slice_get, IfOk};
ghost use Rattle.std.specs.Option.{option_to_list};
ghost use Rattle.j39_network.specs.PlanLimits.{request_limit};
ghost use Rattle.j39_network.specs.declared.plan.Plan.{Plan as APlan};
ghost use Rattle.j39_network.specs.declared.plan.request_plan.RequestPlan.{RequestPlan as ARequest};
ghost use Rattle.j39_follow.specs.declared.request.event.Event.{Event as AnEvent};
ghost use Rattle.j39_follow.specs.inside.Exchanging.{AreExchanges, IsAfter, exchange_at};

use crate::request::event::Event;
use crate::request::exchange::Exchange;
use j39_network::Plan;
use j39_network::limits::REQUEST_LIMIT;
use std::alloc::{AllocError, Global};

/// How often each request was asked, answered and refused, by its place.
#[derive(Drop)]
pub(crate) struct Exchanges {
    // 16 KB, so it isn't kept on the stack.
    table: Box<[Exchange; REQUEST_LIMIT]>,
}

// What came of the request at a place.
fn exchange_in(table: &[Exchange; REQUEST_LIMIT], place: usize) -> Exchange
    requires { place < request_limit }
    ensures { result ≡ exchange_at table.now place }
{
    table[place]
}

// Notes what an event is to each request.
fn note_event(table: &mut [Exchange; REQUEST_LIMIT], plan: &Plan, event: Event)
    ensures { (place : ℕ) (r : ARequest) → slice_get plan.now.requests.items place ≡ Some r
        → IsAfter plan.now place r event (exchange_at table.old place) (exchange_at table.new place) }
{
    for place in 0..plan.requests.len() {
        let request = &plan.requests[place];
        let exchange = exchange_in(table, place).after(plan, place, request, event);
        table[place] = exchange;
    }
}

impl Exchanges {
    // Not inlined: the table is on the stack until it is in its box, and no longer.
    #[inline(never)]
    pub fn new(alloc: Global) -> Result<Self, AllocError>
        ensures { IfOk result (λ kept. (plan : APlan) → AreExchanges plan kept []) }
    {
        Ok(Exchanges {
            table: Box::new(alloc, [Exchange::new(); REQUEST_LIMIT])?,
        })
    }

    /// Notes an event.
    pub fn hear(&mut self, plan: &Plan, event: Event)
        ensures { (events : List AnEvent) → length events < 2 ^ 64 - 1 → AreExchanges plan.now self.old events
            → AreExchanges plan.now self.new (events ++ event ∷ []) }
    {
        note_event(&mut *self.table, plan, event);
    }

    /// Notes an event, if there is one.
    pub fn hear_any(&mut self, plan: &Plan, event: Option<Event>)
        ensures { (events : List AnEvent) → length events < 2 ^ 64 - 1 → AreExchanges plan.now self.old events
            → AreExchanges plan.now self.new (events ++ option_to_list event) }
    {
        match event {
            Some(event) => self.hear(plan, event),
            None => {}
        }
    }

    /// What came of the request at a place.
    pub fn exchange(&self, place: usize) -> Exchange
        requires { place < request_limit }
        ensures { result ≡ exchange_at self.now.table.value place }
    {
        exchange_in(&*self.table, place)
    }
}
