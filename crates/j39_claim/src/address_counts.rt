//! How many units stand at each address.
ghost use Rattle.std.specs.Prelude.{◌≡◌, ℕ, ◌+◌, ◌<◌, ◌==◌, nat_lt, replicate, slice_index};
ghost use Rattle.std.specs.FinSet as set;
ghost use Rattle.std.specs.Int.{from_bool};
ghost use Rattle.j39_id.specs.Addresses.{null_address};

use crate::AddressSet;
use j39_id::Address;
use j39_id::addresses::NULL_ADDRESS;
use std::marker::Model;

/// How many addresses a unit can hold: all below the null address.
const ADDRESS_COUNT: usize = NULL_ADDRESS as usize;

/// How many NAMEs are noted at each address, and at which addresses some NAME is.
#[derive(Drop)]
pub(crate) struct AddressCounts {
    counts: [u8; ADDRESS_COUNT],
    noted: AddressSet,
}

impl Model for AddressCounts {
    ghost use Rattle.std.specs.Prelude.{ℕ, List};
    ghost use Rattle.j39_claim.specs.inside.Noting.{HasCounted};

    ghost Value = { List ℕ };

    ghost view = { λ a. a.counts };

    ghost invariant = { λ a. HasCounted a.noted a.counts };
}

impl AddressCounts {
    #[tactic(auto, using(crate::proofs::Counts::none_counted))]
    pub fn new() -> Self
        ensures { result ≡ replicate null_address 0 }
    {
        AddressCounts {
            counts: [0; ADDRESS_COUNT],
            noted: AddressSet::new(),
        }
    }

    /// One NAME more is noted at an address.
    #[tactic(auto, using(crate::proofs::Counts::raised))]
    pub fn raise(&mut self, address: Address)
        requires { slice_index self.old address < 255 }
        ensures { (a : ℕ) → slice_index self.new a ≡ slice_index self.old a + from_bool (address == a) }
    {
        self.counts[usize::from(address.number())] += 1;
        self.noted.insert(address);
    }

    /// One NAME fewer is noted at an address.
    #[tactic(auto, using(crate::proofs::Counts::lowered_last, crate::proofs::Counts::lowered_still))]
    pub fn lower(&mut self, address: Address)
        requires { 0 < slice_index self.old address }
        ensures { (a : ℕ) → slice_index self.new a + from_bool (address == a) ≡ slice_index self.old a }
    {
        let place = usize::from(address.number());
        let count = self.counts[place] - 1;
        self.counts[place] = count;
        if count == 0 {
            self.noted.remove(address);
        }
    }

    /// The addresses at which a NAME is noted.
    pub fn noted(&self) -> &AddressSet
        ensures { (a : ℕ) → set.contains result.now a ≡ nat_lt 0 (slice_index self.now a) }
    {
        &self.noted
    }
}
