//! A flow of a plan.
ghost use Rattle.std.specs.Prelude.{◌≤◌};
ghost use Rattle.std.specs.Option.{ForSome};

use super::{Pace, To};

/// A flow: a group that a unit sends, by the places of both from 0, and how often, where that is known.
#[derive(Clone, Copy)]
pub struct FlowPlan {
    pub group: usize,
    pub sender: usize,
    pub to: To,
    pub pace: Option<Pace>,
    /// In so many milliseconds at least one message of the flow is released, however they lie.
    pub pause: Option<u16>,
    /// Whether the flow is sent only as the answer to a request.
    pub on_request: bool,
    pub ghost pause_positive: { ForSome pause (λ n. 1 ≤ n) },
}
