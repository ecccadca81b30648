//! Which units that never claim have an address that another one may hold.
ghost use Rattle.std.specs.Prelude.{◌≡◌};
ghost use Rattle.j39_search.specs.Adding.{Adds};
ghost use Rattle.j39_findings.specs.Found.{have_silent_address, is_silent_in_pool, silent_findings};

use crate::checking::finding::Finding;
use j39_claim::AddressSet;
use j39_id::addresses::is_in_pool;
use j39_network::UnitPlan;
use j39_search::{FindResult, PairRule, TestRule, find_pairs, find_tested};

#[derive(Clone, Copy)]
struct SilentAddress;

impl PairRule<UnitPlan, Finding> for SilentAddress {
    ghost use Rattle.j39_findings.specs.declared.checking.finding.Finding.TheVariants.{SilentAddress as SilentAddresses};

    ghost test = { λ _. have_silent_address };

    ghost make = { λ _ u v. SilentAddresses u v };

    fn holds(&self, first: &UnitPlan, second: &UnitPlan) -> bool {
        first.address == second.address && !(first.claims && second.claims)
    }

    fn finding(&self, first: usize, second: usize) -> Finding {
        Finding::SilentAddress(first, second)
    }
}

// Whether it has an address of the pool without claiming it, to which others may move.
fn is_silent_in_pool(kept: &AddressSet, strangers: u8, unit: &UnitPlan) -> bool
    ensures { result ≡ is_silent_in_pool kept.now strangers unit.now }
{
    !unit.claims && is_in_pool(unit.address.number()) && (!kept.has(unit.address) || strangers > 0)
}

#[derive(Clone, Copy)]
struct SilentInPool<'a> {
    kept: &'a AddressSet,
    strangers: u8,
}

impl TestRule<UnitPlan, Finding> for SilentInPool<'_> {
    ghost use Rattle.j39_findings.specs.declared.checking.finding.Finding.TheVariants.{SilentInPool as SilentInPools};

    ghost test = { λ rule. is_silent_in_pool rule.kept.now rule.strangers };

    ghost make = { λ _ u. SilentInPools u };

    fn holds(&self, unit: &UnitPlan) -> bool {
        is_silent_in_pool(self.kept, self.strangers, unit)
    }

    fn finding(&self, place: usize) -> Finding {
        Finding::SilentInPool(place)
    }
}

#[tactic(auto, using(j39_search::proofs::AddingLemmas::refuses, j39_search::proofs::AddingLemmas::some_left, j39_search::proofs::AddingLemmas::some_right, j39_search::proofs::AddingLemmas::adds_behind), unfolding(crate::specs::Found::silent_findings, j39_search::specs::ListPlaces::each))]
pub fn find_silent(
    findings: &mut Vec<Finding>,
    kept: &AddressSet,
    strangers: u8,
    units: &[UnitPlan],
) -> FindResult
    ensures { Adds result findings.old.items findings.new.items (silent_findings kept.now strangers units.now) }
{
    find_pairs(findings, &SilentAddress, units)?;
    find_tested(findings, &SilentInPool { kept, strangers }, units)
}
