//! A need of a plan.
ghost use Rattle.std.specs.Prelude.{◌≤◌};
ghost use Rattle.std.specs.Option.{ForSome};

/// What a unit has to hear: a group or one of its signals, by the places of all from 0.
#[derive(Clone, Copy)]
pub struct NeedPlan {
    pub unit: usize,
    pub group: usize,
    /// A signal of the group.
    pub signal: Option<usize>,
    /// The unit that has to send it; without one it may be any other.
    pub from: Option<usize>,
    /// How old it may be at most, in milliseconds.
    pub within: Option<u16>,
    pub ghost within_positive: { ForSome within (λ n. 1 ≤ n) },
}
