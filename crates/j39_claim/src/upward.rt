//! The next free address.
ghost use Rattle.std.specs.Prelude.{unwrap_or};
ghost use Rattle.j39_claim.specs.AddressSets.{next_free};

use crate::{AddressSet, Choose};
use j39_id::Name;
use j39_id::addresses::POOL_FIRST;

/// Chooses the first free address after the one that is lost, counted upwards and from 247 round to 128.
#[derive(Drop)]
pub struct Upward;

impl Choose for Upward {
    ghost pick = { λ chooser own before taken. unwrap_or (next_free before taken) 128 };

    fn choose(&self, _own: Name, before: u8, taken: &AddressSet) -> u8 {
        taken.next_free(before).unwrap_or(POOL_FIRST)
    }
}
