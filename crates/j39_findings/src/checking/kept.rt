//! Which units prefer an address that is kept free.
ghost use Rattle.std.specs.Prelude.{◌≡◌};
ghost use Rattle.j39_search.specs.Adding.{Adds};
ghost use Rattle.j39_findings.specs.Found.{prefers_kept, kept_findings};

use crate::checking::finding::Finding;
use j39_claim::AddressSet;
use j39_network::UnitPlan;
use j39_search::{FindResult, TestRule, find_tested};

fn prefers_kept(kept: &AddressSet, unit: &UnitPlan) -> bool
    ensures { result ≡ prefers_kept kept.now unit.now }
{
    unit.name.is_arbitrary() && kept.has(unit.address)
}

#[derive(Clone, Copy)]
struct KeptAddress<'a> {
    kept: &'a AddressSet,
}

impl TestRule<UnitPlan, Finding> for KeptAddress<'_> {
    ghost use Rattle.j39_findings.specs.declared.checking.finding.Finding.TheVariants.{KeptAddress as KeptAddresses};

    ghost test = { λ rule. prefers_kept rule.kept.now };

    ghost make = { λ _ i. KeptAddresses i };

    fn holds(&self, unit: &UnitPlan) -> bool {
        prefers_kept(self.kept, unit)
    }

    fn finding(&self, place: usize) -> Finding {
        Finding::KeptAddress(place)
    }
}

#[tactic(auto, unfolding(crate::specs::Found::kept_findings))]
pub fn find_kept(findings: &mut Vec<Finding>, kept: &AddressSet, units: &[UnitPlan]) -> FindResult
    ensures { Adds result findings.old.items findings.new.items (kept_findings kept.now units.now) }
{
    find_tested(findings, &KeptAddress { kept }, units)
}
