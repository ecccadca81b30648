//! Which flows of a live plan have an end that isn't alone at its address.
ghost use Rattle.std.specs.Prelude.{◌≡◌};
ghost use Rattle.j39_search.specs.Adding.{Adds};
ghost use Rattle.j39_findings.specs.Found.{contested_findings, is_contested, is_end_contested, is_receiver_contested};
ghost use Rattle.j39_findings.specs.Standing.{alone_of};

use crate::checking::finding::Finding;
use crate::standing::Standing;
use j39_claim::AddressSet;
use j39_network::{FlowPlan, Plan, To, UnitPlan};
use j39_search::{FindResult, TestRule, find_tested};

#[derive(Clone, Copy)]
struct FlowContested<'a> {
    standing: &'a Standing,
    kept: &'a AddressSet,
    units: &'a [UnitPlan],
}

impl FlowContested<'_> {
    fn is_end(&self, unit: usize) -> bool
        ensures { result ≡ is_end_contested (alone_of self.now.standing.now self.now.kept.now) self.now.units.now unit }
    {
        match self.units.get(unit) {
            Some(unit) => !self.standing.is_alone(self.kept, unit),
            None => true,
        }
    }

    // All others know the sender by its address alone.
    fn is_receiver(&self, to: To) -> bool
        ensures { result
            ≡ is_receiver_contested (alone_of self.now.standing.now self.now.kept.now) self.now.units.now to }
    {
        match to {
            To::All => false,
            To::One(receiver) => self.is_end(receiver),
        }
    }

    fn is_contested(&self, flow: &FlowPlan) -> bool
        ensures { result ≡ is_contested (alone_of self.now.standing.now self.now.kept.now) self.now.units.now flow.now }
    {
        self.is_end(flow.sender) || self.is_receiver(flow.to)
    }
}

impl TestRule<FlowPlan, Finding> for FlowContested<'_> {
    ghost use Rattle.j39_findings.specs.declared.checking.finding.Finding.TheVariants.{FlowContested as FlowsContested};

    ghost test = { λ rule. is_contested (alone_of rule.standing.now rule.kept.now) rule.units.now };

    ghost make = { λ _ f. FlowsContested f };

    fn holds(&self, flow: &FlowPlan) -> bool {
        self.is_contested(flow)
    }

    fn finding(&self, place: usize) -> Finding {
        Finding::FlowContested(place)
    }
}

pub fn find_contested(findings: &mut Vec<Finding>, plan: &Plan) -> FindResult
    ensures { Adds result findings.old.items findings.new.items
        (contested_findings plan.now.live plan.now.keep_free plan.now.strangers plan.now.units.items plan.now.flows.items) }
{
    if !plan.live {
        return Ok(());
    }
    let standing = Standing::new(plan);
    let rule = FlowContested {
        standing: &standing,
        kept: &plan.keep_free,
        units: plan.units.as_slice(),
    };
    find_tested(findings, &rule, plan.flows.as_slice())
}
