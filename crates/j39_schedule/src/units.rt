//! The units of a plan, found by their labels.
ghost use Rattle.std.specs.Prelude.{◌≡◌, IfOk};
ghost use Rattle.j39_schedule.specs.Schedule.{unit_named};

use crate::unit_index::UnitIndex;
use j39_network::Plan;
use std::alloc::{AllocError, Global};
use std::marker::Model;

/// A plan whose units are found by their labels without a look at each. Contracts see the plan.
#[derive(Drop)]
pub struct Units<'a> {
    plan: &'a Plan,
    index: UnitIndex,
}

impl<'a> Model for Units<'a> {
    ghost use Rattle.std.specs.Coded.{codes, coded_ℕ};
    ghost use Rattle.std.specs.FinSet as set;
    ghost use Rattle.std.specs.Ordering.{nat_cmp};
    ghost use Rattle.j39_network.specs.declared.plan.Plan.{Plan as Planned};
    ghost use Rattle.j39_schedule.specs.inside.UnitIndexes.{IsIndexOf};

    ghost Value = { Planned };

    ghost coded = { Prim.hlevel (codes, set.code {R = nat_cmp} coded_ℕ) };

    ghost view = { λ u. u.plan.now };

    ghost invariant = { λ u. IsIndexOf u.plan.now u.index };
}

impl<'a> Units<'a> {
    /// The units of a plan.
    pub fn new(alloc: Global, plan: &'a Plan) -> Result<Self, AllocError>
        ensures { IfOk result (λ units. units ≡ plan.now) }
    {
        let index = UnitIndex::new(alloc, plan)?;
        Ok(Units { plan, index })
    }

    /// The plan.
    pub fn plan(&self) -> &Plan
        ensures { result.now ≡ self.now }
    {
        self.plan
    }

    /// The unit of a label, by its place.
    pub fn find(&self, label: &[u8]) -> Option<usize>
        ensures { result ≡ unit_named self.now label.now }
    {
        self.index.find(self.plan, label)
    }
}
