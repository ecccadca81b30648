//! How often a flow is sent.
ghost use Rattle.std.specs.Prelude.{◌≤◌, ◌<◌};
ghost use Rattle.std.specs.Option.{ForSome};

/// How often a flow is sent, and how soon each of its frames has to be on the bus, in milliseconds.
#[derive(Clone, Copy)]
pub struct Pace {
    /// The releases of two messages of the flow are at least so far apart.
    pub period: u16,
    /// As it is written: without one it is the period.
    pub deadline: Option<u16>,
    /// A message is queued at most so long after its release.
    pub jitter: u16,
    pub ghost period_positive: { 1 ≤ period },
    pub ghost deadline_positive: { ForSome deadline (λ n. 1 ≤ n) },
    pub ghost jitter_range: { jitter < period },
}
