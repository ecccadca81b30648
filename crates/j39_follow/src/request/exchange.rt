//! How often a request was asked, answered and refused.
ghost use Rattle.std.specs.Prelude.{◌≡◌, ◌^◌, ◌-◌, ◌+◌, ◌&&◌, ◌||◌, not, if◌then◌else◌, min};
ghost use Rattle.j39_follow.specs.inside.Exchanging.{IsAfter, nothing_asked};

use crate::request::event::Event;
use crate::request::replies::{answers, asks, refuses};
use j39_network::{Plan, RequestPlan};

/// How often a request was asked, answered and refused, and whether it is open.
#[derive(Clone, Copy)]
pub(crate) struct Exchange {
    pub asked: u64,
    pub answered: u64,
    pub refused: u64,
    pub is_open: bool,
}

// One more, if this comes while it is open.
fn one_more_if(count: u64, is_open: bool, comes: bool) -> u64
    ensures { result ≡ (if is_open && comes then min (count + 1) (2 ^ 64 - 1) else count) }
{
    if is_open && comes {
        count.saturating_add(1)
    } else {
        count
    }
}

// Whether it is open behind an event that asks it, answers it or refuses it.
fn is_open_behind(is_open: bool, asks: bool, answers: bool, refuses: bool) -> bool
    ensures { result ≡ (asks || (is_open && not (answers || refuses))) }
{
    asks || (is_open && !(answers || refuses))
}

impl Exchange {
    pub fn new() -> Self
        ensures { result ≡ nothing_asked }
    {
        Exchange {
            asked: 0,
            answered: 0,
            refused: 0,
            is_open: false,
        }
    }

    /// What it is behind an event.
    pub fn after(self, plan: &Plan, place: usize, request: &RequestPlan, event: Event) -> Self
        ensures { IsAfter plan.now place request.now event self result }
    {
        let asks = asks(place, event);
        let answers = answers(plan, request, event);
        let refuses = refuses(plan, request, event);
        Exchange {
            asked: one_more_if(self.asked, true, asks),
            answered: one_more_if(self.answered, self.is_open, answers),
            refused: one_more_if(self.refused, self.is_open, refuses),
            is_open: is_open_behind(self.is_open, asks, answers, refuses),
        }
    }
}
