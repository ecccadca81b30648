//! What is wrong with the units of a plan.
ghost use Rattle.std.specs.Prelude.{◌≡◌, ◌≤◌, length};
ghost use Rattle.j39_id.specs.Limits.{unit_limit};
ghost use Rattle.j39_search.specs.Adding.{Adds};
ghost use Rattle.j39_network.specs.Kinds.{may_be_one};
ghost use Rattle.j39_findings.specs.Found.{have_same_fixed_address, is_fixed, needed_addresses, needs_pool_address};
ghost use Rattle.j39_findings.specs.Found.{unit_findings};

use crate::checking::finding::Finding;
use j39_claim::AddressSet;
use j39_id::addresses::is_in_pool;
use j39_network::{UnitPlan, may_be_one};
use j39_search::{FindResult, PairRule, find_pairs, push_if};

#[derive(Clone, Copy)]
struct SameName;

impl PairRule<UnitPlan, Finding> for SameName {
    ghost use Rattle.j39_findings.specs.declared.checking.finding.Finding.TheVariants.{SameName as SameNames};

    ghost test = { λ _. may_be_one };

    ghost make = { λ _ i j. SameNames i j };

    fn holds(&self, first: &UnitPlan, second: &UnitPlan) -> bool {
        may_be_one(first, second)
    }

    fn finding(&self, first: usize, second: usize) -> Finding {
        Finding::SameName(first, second)
    }
}

fn is_fixed(unit: &UnitPlan) -> bool
    ensures { result ≡ is_fixed unit.now }
{
    !unit.name.is_arbitrary()
}

#[derive(Clone, Copy)]
struct SameFixedAddress;

impl PairRule<UnitPlan, Finding> for SameFixedAddress {
    ghost use Rattle.j39_findings.specs.declared.checking.finding.Finding.TheVariants.{SameFixedAddress as SameAddresses};

    ghost test = { λ _. have_same_fixed_address };

    ghost make = { λ _ i j. SameAddresses i j };

    fn holds(&self, first: &UnitPlan, second: &UnitPlan) -> bool {
        is_fixed(first)
            && is_fixed(second)
            && first.address == second.address
            && first.claims
            && second.claims
    }

    fn finding(&self, first: usize, second: usize) -> Finding {
        Finding::SameFixedAddress(first, second)
    }
}

// An arbitrary unit needs some address of the pool that isn't kept free, and a fixed one has its own there.
fn needs_pool_address(kept: &AddressSet, unit: &UnitPlan) -> bool
    ensures { result ≡ needs_pool_address kept.now unit.now }
{
    unit.name.is_arbitrary() || is_in_pool(unit.address.number()) && !kept.has(unit.address)
}

// With so many strangers, each of which may have to move to any address there.
fn needed_addresses(kept: &AddressSet, strangers: u8, units: &[UnitPlan]) -> usize
    requires { length units.now ≤ unit_limit }
    ensures { result ≡ needed_addresses kept.now strangers units.now }
{
    let planned = units
        .iter()
        .filter(|unit| needs_pool_address(kept, unit))
        .count();
    planned + usize::from(strangers)
}

#[tactic(auto, using(j39_search::proofs::AddingLemmas::refuses, j39_search::proofs::AddingLemmas::some_left, j39_search::proofs::AddingLemmas::some_right, j39_search::proofs::AddingLemmas::adds_behind), unfolding(crate::specs::Found::unit_findings))]
pub fn find_in_units(
    findings: &mut Vec<Finding>,
    kept: &AddressSet,
    strangers: u8,
    units: &[UnitPlan],
) -> FindResult
    requires { length units.now ≤ unit_limit }
    ensures { Adds result findings.old.items findings.new.items (unit_findings kept.now strangers units.now) }
{
    find_pairs(findings, &SameName, units)?;
    find_pairs(findings, &SameFixedAddress, units)?;
    let needed = needed_addresses(kept, strangers, units);
    let room = kept.free_count();
    push_if(findings, needed > room, Finding::TooFewAddresses(needed))
}
