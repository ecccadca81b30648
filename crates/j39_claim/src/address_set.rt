//! Sets of addresses.
ghost use Rattle.std.specs.Prelude.{◌≡◌};
ghost use Rattle.std.specs.FinSet as set;
ghost use Rattle.j39_claim.specs.AddressSets.{is_free, free_count, lowest_free, next_free};
ghost use Rattle.j39_claim.specs.inside.AddressWords.{ArePassing};

use crate::free_pool::FreePool;
use j39_id::Address;
use std::marker::Model;

/// A set of addresses: address a is bit a % 64 of word a / 64.
#[derive(Drop)]
pub struct AddressSet {
    words: [u64; 4],
}

impl Model for AddressSet {
    ghost use Rattle.std.specs.Ordering.{nat_cmp};
    ghost use Rattle.std.specs.FinSet as set;
    ghost use Rattle.std.specs.Coded.{coded_ℕ};
    ghost use Rattle.j39_claim.specs.inside.AddressWords.{set_of};

    ghost Value = { set.FinSet nat_cmp };

    ghost coded = { set.code coded_ℕ };

    ghost view = { λ a. set_of a.words };
}

impl AddressSet {
    /// The empty set.
    #[tactic(auto, using(crate::proofs::WordSets::no_bit))]
    pub fn new() -> Self
        ensures { result ≡ set.empty }
    {
        AddressSet { words: [0; 4] }
    }

    /// A second set of the same addresses.
    pub fn copy(&self) -> Self
        ensures { result ≡ self.now }
    {
        AddressSet { words: self.words }
    }

    /// The addresses of this set and of another.
    #[tactic(auto, using(crate::proofs::WordSets::either_bit))]
    pub(crate) fn union(&self, other: &AddressSet) -> Self
        ensures { result ≡ set.union self.now other.now }
    {
        let [a, b, c, d] = self.words;
        let [e, f, g, h] = other.words;
        AddressSet {
            words: [a | e, b | f, c | g, d | h],
        }
    }

    /// Whether the address is in the set.
    #[tactic(auto, using(crate::proofs::WordSets::bit_read))]
    pub fn has(&self, address: Address) -> bool
        ensures { result ≡ set.contains self.now address }
    {
        let number = address.number();
        self.words[usize::from(number / 64)] >> (number % 64) & 1 == 1
    }

    /// Adds the address.
    #[tactic(auto, using(crate::proofs::WordSets::bit_set))]
    pub fn insert(&mut self, address: Address)
        ensures { self.new ≡ set.insert self.old address }
    {
        let number = address.number();
        self.words[usize::from(number / 64)] |= 1 << (number % 64);
    }

    /// Takes the address out.
    #[tactic(auto, using(crate::proofs::WordSets::bit_cleared))]
    pub fn remove(&mut self, address: Address)
        ensures { self.new ≡ set.remove self.old address }
    {
        let number = address.number();
        self.words[usize::from(number / 64)] &= !(1 << (number % 64));
    }

    /// How many of 128 to 247 it lacks.
    #[tactic(auto, using(crate::proofs::PoolBits::free_count_is))]
    pub fn free_count(&self) -> usize
        ensures { result ≡ free_count self.now }
    {
        self.free_pool().count()
    }

    /// The least of 128 to 247 that it lacks.
    #[tactic(auto, using(crate::proofs::PoolBits::lowest_free_is))]
    pub fn lowest_free(&self) -> Option<u8>
        ensures { result ≡ lowest_free self.now }
    {
        self.free_pool().least()
    }

    /// The first of 128 to 247 after `before` that it lacks, counted upwards and from 247 round to 128.
    pub(crate) fn next_free(&self, before: u8) -> Option<u8>
        ensures { result ≡ next_free before self.now }
    {
        match self.free_pool().above(before).least() {
            Some(number) => Some(number),
            None => self.lowest_free(),
        }
    }

    /// What it lacks of 128 to 247.
    #[tactic(auto, using(crate::proofs::WordSets::free_bits))]
    fn free_pool(&self) -> FreePool
        ensures { ArePassing (is_free self.now) result.low result.high }
    {
        FreePool {
            low: !self.words[2],
            high: !self.words[3] & u64::MAX >> 8,
        }
    }
}
