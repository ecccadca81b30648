//! The least free address.
ghost use Rattle.std.specs.Prelude.{unwrap_or};
ghost use Rattle.j39_claim.specs.AddressSets.{lowest_free};

use crate::{AddressSet, Choose};
use j39_id::Name;
use j39_id::addresses::POOL_FIRST;

/// Chooses the least free address.
#[derive(Drop)]
pub struct Lowest;

impl Choose for Lowest {
    ghost pick = { λ chooser own before taken. unwrap_or (lowest_free taken) 128 };

    fn choose(&self, _own: Name, _before: u8, taken: &AddressSet) -> u8 {
        taken.lowest_free().unwrap_or(POOL_FIRST)
    }
}
