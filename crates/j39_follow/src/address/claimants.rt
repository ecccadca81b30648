//! The NAMEs that claimed an address, or could not.
ghost use Rattle.std.specs.Prelude.{◌≡◌, ◌==◌, ℕ, None, Some, OnOk, if◌then◌else◌};
ghost use Rattle.j39_follow.specs.inside.Contesting.{claimant_in, known_in};

use crate::address::who::{Who, likely_named};
use j39_network::Plan;
use std::alloc::{AllocError, Global};
use std::collections::BTreeMap;

/// Who a NAME is, and the address that it claimed, if that is what was reported of it last.
#[derive(Clone, Copy)]
pub(crate) struct Claimant {
    pub party: Who,
    pub address: Option<u8>,
}

/// The NAMEs of which something was reported, each found without a look at the others.
#[derive(Drop)]
pub(crate) struct Claimants {
    known: BTreeMap<u64, Claimant>,
}

impl Claimants {
    pub fn new(alloc: Global) -> Self
        ensures { (name : ℕ) → known_in result name ≡ None }
    {
        Claimants {
            known: BTreeMap::new(alloc),
        }
    }

    /// What is known of a NAME.
    pub fn claimant(&self, plan: &Plan, name: u64) -> Claimant
        ensures { result ≡ claimant_in plan.now self.now name }
    {
        match self.known.get(&name) {
            Some(claimant) => *claimant,
            None => Claimant {
                party: likely_named(plan, name),
                address: None,
            },
        }
    }

    /// Notes what is known of a NAME.
    pub fn note(&mut self, name: u64, claimant: Claimant) -> Result<(), AllocError>
        ensures { OnOk result ((n : ℕ)
            → known_in self.new n ≡ (if name == n then Some claimant else known_in self.old n)) }
    {
        match self.known.insert(name, claimant) {
            Ok(_) => Ok(()),
            Err(_) => Err(AllocError),
        }
    }
}
