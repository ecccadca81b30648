//! The least and the greatest of the addresses that a unit may come to hold.
ghost use Rattle.std.specs.Prelude.{◌≡◌};
ghost use Rattle.j39_findings.specs.Standing.{stays_of};
ghost use Rattle.j39_load.specs.Loads.{may_move};
ghost use Rattle.j39_load.specs.inside.Extremes.{extreme_address};

use j39_findings::Standing;
use j39_id::addresses::{POOL_FIRST, POOL_LAST};
use j39_network::UnitPlan;

/// One end of the addresses that a unit may come to hold.
#[derive(Clone, Copy)]
pub(crate) enum Extreme {
    Least,
    Greatest,
}

// Whether the unit may come to hold another address than its planned one.
fn may_move(standing: &Standing, unit: &UnitPlan) -> bool
    ensures { result ≡ may_move (stays_of standing.now) unit.now }
{
    unit.name.is_arbitrary() && !standing.stays(unit)
}

impl Extreme {
    /// The unit's address at this end.
    pub fn address(self, standing: &Standing, unit: &UnitPlan) -> u8
        ensures { result ≡ extreme_address self (stays_of standing.now) unit.now }
    {
        let planned = unit.address.number();
        if !may_move(standing, unit) {
            return planned;
        }
        match self {
            Extreme::Least => planned.min(POOL_FIRST),
            Extreme::Greatest => planned.max(POOL_LAST),
        }
    }
}
