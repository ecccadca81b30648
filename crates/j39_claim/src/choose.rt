//! Which free address a unit moves to.
ghost use Rattle.std.specs.Prelude.{◌≡◌, ◌<◌, ℕ};
ghost use Rattle.std.specs.Ordering.{nat_cmp};
ghost use Rattle.std.specs.FinSet.{FinSet};
ghost use Rattle.j39_claim.specs.AddressSets.{free_count, IsFreeIn};

use crate::AddressSet;
use j39_id::Name;

/// Chooses where a unit moves that loses its address (SAE J1939-81 leaves the choice to the unit).
pub trait Choose: Drop {
    /// What it chooses for a unit of this NAME that loses an address, where these are taken.
    ghost pick: { Self → ℕ → ℕ → FinSet nat_cmp → ℕ };

    /// An address of 128 to 247 that is not taken. `before` is the address that the unit loses.
    fn choose(&self, own: Name, before: u8, taken: &AddressSet) -> u8
        requires { 0 < free_count taken.now }
        ensures pick { result ≡ pick self.now own before taken.now }
        ensures free { IsFreeIn taken.now result };
}
