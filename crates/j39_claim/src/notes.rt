//! What a unit has noted of the others.
ghost use Rattle.std.specs.Prelude.{◌≡◌, true, T, IfOk, IfErr};
ghost use Rattle.std.specs.FinMap as map;
ghost use Rattle.std.specs.FinMap.{is_sorted};
ghost use Rattle.std.specs.Ordering.{nat_cmp};
ghost use Rattle.j39_claim.specs.ClaimerValue.{can_note};
ghost use Rattle.j39_claim.specs.ExactAnswer.{noted_addresses};
ghost use Rattle.j39_claim.specs.inside.Noting.{IsAt, IsGapFor};

use crate::AddressSet;
use crate::address_counts::AddressCounts;
use arrayvec::ArrayVec;
use j39_id::limits::UNIT_LIMIT;
use j39_id::{Address, Name};
use std::marker::Model;

/// The address last heard from each NAME, of at most `UNIT_LIMIT` NAMEs, in rising order of NAME.
#[derive(Drop)]
pub(crate) struct Notes {
    pairs: ArrayVec<(Name, Address), UNIT_LIMIT>,
    counts: AddressCounts,
}

impl Model for Notes {
    ghost use Rattle.std.specs.Prelude.{ℕ};
    ghost use Rattle.std.specs.Ordering.{nat_cmp};
    ghost use Rattle.std.specs.FinMap as map;
    ghost use Rattle.std.specs.Coded.{coded_ℕ};
    ghost use Rattle.j39_claim.specs.inside.Noting.{AreNotes};

    ghost Value = { map.FinMap nat_cmp ℕ };

    ghost coded = { map.code coded_ℕ coded_ℕ };

    ghost view = { λ a. map.from_sorted a.pairs.items };

    ghost invariant = { λ a. AreNotes a.pairs.items a.counts };
}

impl Notes {
    pub fn new() -> Self
        ensures { result ≡ map.empty }
    {
        Notes {
            pairs: ArrayVec::new(),
            counts: AddressCounts::new(),
        }
    }

    /// Whether the NAME is noted or there is room for it.
    pub fn can_note(&self, name: Name) -> bool
        ensures { result ≡ can_note self.now name }
    {
        place_of(self.pairs.as_slice(), name).is_ok() || self.pairs.len() < UNIT_LIMIT
    }

    /// Notes the address of a NAME in place of what was noted of it.
    pub fn note(&mut self, name: Name, address: Address)
        requires { can_note self.old name ≡ true }
        ensures { self.new ≡ map.insert self.old name address }
    {
        match place_of(self.pairs.as_slice(), name) {
            Ok(place) => {
                let old = self.pairs.as_slice()[place].1;
                self.counts.lower(old);
                self.pairs.as_mut_slice()[place] = (name, address);
            }
            Err(place) => self.pairs.insert(place, (name, address)),
        }
        self.counts.raise(address);
    }

    /// Drops the note of a NAME, if there is one.
    pub fn forget(&mut self, name: Name)
        ensures { self.new ≡ map.remove self.old name }
    {
        if let Ok(place) = place_of(self.pairs.as_slice(), name) {
            let (_, address) = self.pairs.remove(place);
            self.counts.lower(address);
        }
    }

    /// All addresses that are noted.
    pub fn addresses(&self) -> &AddressSet
        ensures { result.now ≡ noted_addresses self.now }
    {
        self.counts.noted()
    }
}

/// The place of a NAME, or the place where it belongs.
fn place_of(pairs: &[(Name, Address)], name: Name) -> Result<usize, usize>
    requires { T (is_sorted nat_cmp pairs.now) }
    ensures found { IfOk result (IsAt pairs.now name) }
    ensures absent { IfErr result (IsGapFor pairs.now name) }
{
    pairs.binary_search_by_key(&name, |pair| pair.0)
}
