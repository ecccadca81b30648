//! The addresses of SAE J1939-81 that are more than one unit's.
ghost use Rattle.std.specs.Prelude.{◌≡◌};
ghost use Rattle.j39_id.specs.Addresses.{in_pool};

/// Where a unit sends from that holds no address.
pub const NULL_ADDRESS: u8 = 254;

/// Where a frame goes that is for all.
pub const GLOBAL_ADDRESS: u8 = 255;

/// The first address of the pool among which arbitrary address capable units choose.
pub const POOL_FIRST: u8 = 128;

/// The last address of the pool.
pub const POOL_LAST: u8 = 247;

/// How many addresses the pool has.
pub const POOL_SIZE: usize = 120;

/// Whether the pool has the address.
pub fn is_in_pool(number: u8) -> bool
    ensures { result ≡ in_pool number }
{
    POOL_FIRST <= number && number <= POOL_LAST
}
