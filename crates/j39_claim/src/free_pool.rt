//! The free addresses of the pool, as bits.
ghost use Rattle.std.specs.Prelude.{◌≡◌, ℕ, Bool, nat_lt, ◌+◌, ◌<◌, ◌≤◌};
ghost use Rattle.std.specs.Int.{bit_at, from_bool};
ghost use Rattle.j39_claim.specs.inside.AddressWords.{ArePassing, count_in_pool, least_in_pool, is_above};

use j39_id::addresses::POOL_FIRST;

/// The address of bit 0 of the second word.
const SECOND_WORD: u8 = POOL_FIRST + 64;

/// Addresses of 128 to 247: bit i of `low` stands for 128 + i, and bit i of `high` for 192 + i.
#[derive(Clone, Copy)]
pub(crate) struct FreePool {
    pub low: u64,
    pub high: u64,
}

impl FreePool {
    /// How many they are.
    #[tactic(auto, using(crate::proofs::PoolBits::count_is))]
    pub fn count(self) -> usize
        ensures { (p : ℕ → Bool) → ArePassing p self.low self.high → result ≡ count_in_pool p }
    {
        self.low.count_ones() as usize + self.high.count_ones() as usize
    }

    /// The least of them.
    #[tactic(auto, using(crate::proofs::PoolBits::least_high, crate::proofs::PoolBits::least_none))]
    pub fn least(self) -> Option<u8>
        ensures { (p : ℕ → Bool) → ArePassing p self.low self.high → result ≡ least_in_pool p }
    {
        if self.low != 0 {
            Some(POOL_FIRST + self.low.trailing_zeros() as u8)
        } else if self.high != 0 {
            Some(SECOND_WORD + self.high.trailing_zeros() as u8)
        } else {
            None
        }
    }

    /// The free addresses above an address.
    pub fn above(self, address: u8) -> Self
        ensures { (p : ℕ → Bool) → ArePassing p self.low self.high
            → ArePassing (is_above address p) result.low result.high }
    {
        FreePool {
            low: self.low & bits_above(address, POOL_FIRST),
            high: self.high & bits_above(address, SECOND_WORD),
        }
    }
}

/// The bits of the addresses above `address`, in a word whose bit 0 stands for `first`.
#[tactic(auto, using(crate::proofs::PoolBits::all_above, crate::proofs::PoolBits::some_above, crate::proofs::PoolBits::none_above))]
fn bits_above(address: u8, first: u8) -> u64
    requires { first ≤ 192 }
    ensures { (i : ℕ) → i < 64 → bit_at result i ≡ from_bool (nat_lt address (first + i)) }
{
    if address < first {
        u64::MAX
    } else if address - first < 63 {
        u64::MAX << (address - first + 1)
    } else {
        0
    }
}
