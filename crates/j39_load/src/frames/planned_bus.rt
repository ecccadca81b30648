//! A planned bus.
ghost use Rattle.std.specs.Prelude.{◌≡◌, ◌<◌, length};
ghost use Rattle.j39_load.specs.inside.PlannedBuses.{addresses_at, units_in};

use crate::frames::extreme::Extreme;
use j39_findings::Standing;
use j39_network::{Plan, Timing};

/// A plan, how its bus is timed, and which of its units stay: what the identifiers and the streams of its frames rest
/// on.
#[derive(Clone, Copy)]
pub(crate) struct PlannedBus<'a> {
    pub timing: Timing,
    pub plan: &'a Plan,
    pub standing: &'a Standing,
}

impl PlannedBus<'_> {
    /// The address at this end of the unit at a place.
    pub fn address(&self, extreme: Extreme, unit: usize) -> u8
        requires { unit < length (units_in self.now) }
        ensures { result ≡ addresses_at extreme self.now unit }
    {
        extreme.address(self.standing, &self.plan.units[unit])
    }
}
