//! A request of a plan.
ghost use Rattle.std.specs.Prelude.{◌≤◌};
ghost use Rattle.std.specs.Option.{ForSome};

use super::To;

/// A group that a unit asks for, by the places of both from 0: one unit, or all that are on.
#[derive(Clone, Copy)]
pub struct RequestPlan {
    pub group: usize,
    /// The unit that asks.
    pub sender: usize,
    pub to: To,
    /// Two requests are at least so far apart, in milliseconds.
    pub period: Option<u16>,
    pub ghost period_positive: { ForSome period (λ n. 1 ≤ n) },
}
