//! Plans in which nothing is wrong.
ghost use Rattle.std.specs.Prelude.{◌≡◌, [], IfOk, IsOk, OnOk, IfErr};
ghost use Rattle.j39_findings.specs.Findings.{Clean};
ghost use Rattle.j39_findings.specs.Found.{found};
ghost use Rattle.j39_findings.specs.Refused.{IsCauseFor};

use crate::checking::check;
use crate::checking::refused::{Refused, RefusedCause};
use j39_network::Plan;
use std::alloc::Global;
use std::marker::Model;

/// A plan in which nothing is wrong.
#[derive(Drop)]
pub struct CheckedPlan {
    plan: Plan,
}

impl Model for CheckedPlan {
    ghost use Rattle.std.specs.Coded.{codes, coded_ℕ};
    ghost use Rattle.std.specs.FinSet as set;
    ghost use Rattle.std.specs.Ordering.{nat_cmp};
    ghost use Rattle.j39_network.specs.declared.plan.Plan.{Plan as Planned};
    ghost use Rattle.j39_findings.specs.Findings.{Clean};

    ghost Value = { Planned };

    ghost coded = { Prim.hlevel (codes, set.code {R = nat_cmp} coded_ℕ) };

    ghost view = { λ c. c.plan };

    ghost invariant = { λ c. Clean c.plan };
}

impl CheckedPlan {
    ghost use Rattle.j39_findings.specs.Findings.{Clean};

    /// The plan that was checked.
    pub fn plan(&self) -> &Plan
        ensures plan { result.now ≡ self.now }
        ensures clean { Clean self.now }
    {
        &self.plan
    }
}

/// The plan as one in which nothing is wrong. Else the plan comes back, with all that is wrong with it, or where
/// something is wrong and memory was refused for it.
pub fn checked(alloc: Global, plan: Plan) -> Result<CheckedPlan, Refused>
    ensures ok { IfOk result (λ checked. checked ≡ plan) }
    ensures none_found { OnOk result (found plan ≡ []) }
    ensures returned { IfErr result (λ refused. refused.plan ≡ plan) }
    ensures cause { IfErr result (λ refused. IsCauseFor plan refused.cause) }
    ensures clean { Clean plan → IsOk result }
{
    match check(alloc, &plan) {
        Ok(findings) if findings.is_empty() => Ok(CheckedPlan { plan }),
        Ok(findings) => Err(Refused {
            plan,
            cause: RefusedCause::Findings(findings),
        }),
        Err(_) => Err(Refused {
            plan,
            cause: RefusedCause::Memory,
        }),
    }
}
