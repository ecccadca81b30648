//! What the claims of a log report of units and addresses.
ghost use Rattle.std.specs.Prelude.{◌≡◌, ◌+◌, ◌*◌, ◌≢◌, ◌<◌, ◌≤◌, ℕ, true, false, Some, None, IfOk, IfSome, OnOk};
ghost use Rattle.std.specs.Prelude.{if◌then◌else◌, length, slice_index_or};
ghost use Rattle.j39_audit.specs.Claiming.{HeardClaims, broken_off, come_to, no_claims, smaller_name, was_asked_for};
ghost use Rattle.j39_audit.specs.Claiming.{with_claim, with_requests};
ghost use Rattle.j39_audit.specs.Settings.{moves};
ghost use Rattle.j39_audit.specs.inside.Recalling.{KnowsClaims, claimed_in, known_by, last_in, least_in, settings_of};
ghost use Rattle.j39_audit.specs.inside.Recalling.{taken_in};

use crate::basis::Basis;
use crate::places::{kept_at, nothing_kept};
use crate::requests::HeardRequests;
use j39_id::Frame;
use std::alloc::{AllocError, Global};

const ADDRESSES: usize = 256;

/// Where each unit claimed last, which addresses were claimed by a NAME of no unit, the smallest NAME that claimed each
/// address, of each unit in a row which ones it claimed, what was asked for, and the time of the frame at hand.
#[derive(Drop)]
pub(crate) struct Known {
    pub last: Vec<Option<u8>>,
    pub taken: Vec<bool>,
    pub least: Vec<Option<u64>>,
    pub claimed: Vec<bool>,
    pub requests: HeardRequests,
}

// Of so many none is set.
fn none_set(alloc: Global, count: usize) -> Result<Vec<bool>, AllocError>
    ensures size { IfOk result (λ taken. length taken.items ≡ count) }
    ensures none { IfOk result (λ taken. (a : ℕ) → slice_index_or taken.items a false ≡ false) }
{
    let mut taken = Vec::new(alloc);
    for _address in 0..count {
        taken.push(false)?;
    }
    Ok(taken)
}

// The smaller one of a NAME and another, where there is one.
fn smaller(name: u64, other: Option<u64>) -> u64
    ensures { result ≡ smaller_name name other }
{
    match other {
        Some(other) => name.min(other),
        None => name,
    }
}

impl Known {
    pub fn new(alloc: Global, basis: &Basis<'_>) -> Result<Self, AllocError>
        ensures { IfOk result (λ known. KnowsClaims (settings_of basis.now) known no_claims) }
    {
        let units = basis.plan.units.len();
        let last = nothing_kept(alloc, units)?;
        let taken = none_set(alloc, ADDRESSES)?;
        let least = nothing_kept(alloc, ADDRESSES)?;
        let claimed = none_set(alloc, units * ADDRESSES)?;
        Ok(Known {
            last,
            taken,
            least,
            claimed,
            requests: HeardRequests::new(alloc),
        })
    }

    /// Where a unit claimed last.
    pub fn last(&self, unit: usize) -> Option<u8>
        ensures { result ≡ last_in self.now unit }
    {
        kept_at(&self.last, unit)
    }

    /// Whether an address was claimed by a NAME of no unit.
    pub fn is_taken(&self, address: u8) -> bool
        ensures { result ≡ taken_in self.now address }
    {
        let place = usize::from(address);
        if place < self.taken.len() {
            self.taken[place]
        } else {
            false
        }
    }

    /// The smallest NAME that claimed an address.
    pub fn least(&self, address: u8) -> Option<u64>
        ensures { result ≡ least_in self.now address }
    {
        kept_at(&self.least, usize::from(address))
    }

    /// Whether a unit claimed an address.
    pub fn has_claimed(&self, unit: usize, address: u8) -> bool
        requires { unit < 128 }
        ensures { result ≡ claimed_in self.now unit address }
    {
        let place = unit * ADDRESSES + usize::from(address);
        if place < self.claimed.len() {
            self.claimed[place]
        } else {
            false
        }
    }

    /// Comes to a frame of this time, just before which times begin anew, or go on.
    pub fn come_to(&mut self, basis: &Basis<'_>, anew: bool, time: Option<u64>)
        ensures { (claims : HeardClaims) → KnowsClaims (settings_of basis.now) self.old claims
            → KnowsClaims (settings_of basis.now) self.new (come_to anew time claims) }
    {
        self.requests.come_to(anew, time);
    }

    /// Takes a frame of this time that is seen of this request of the plan, or of none.
    pub fn take_request(
        &mut self,
        basis: &Basis<'_>,
        time: Option<u64>,
        frame: &Frame,
        seen: Option<usize>,
    ) -> Result<(), AllocError>
        ensures { OnOk result ((claims : HeardClaims) → KnowsClaims (settings_of basis.now) self.old claims
            → KnowsClaims (settings_of basis.now) self.new
            (with_requests basis.now.plan.now time frame.now seen claims)) }
    {
        self.requests.take(basis.plan, time, frame, seen)
    }

    /// Whether a message of this number, from this source, was asked for: by any requests, or by none of the plan's.
    pub fn was_asked_for(&self, basis: &Basis<'_>, besides: bool, number: u32, source: u8) -> bool
        ensures { result ≡ was_asked_for (settings_of basis.now) (known_by self.now) besides number source }
    {
        self.requests.have_asked_for(basis, besides, number, source)
    }

    // Forgets where a unit claimed last, if it may have moved.
    fn forget(&mut self, basis: &Basis<'_>, unit: usize)
        requires { unit < length self.old.last.items }
        ensures taken { self.new.taken ≡ self.old.taken }
        ensures least { self.new.least ≡ self.old.least }
        ensures claimed { self.new.claimed ≡ self.old.claimed }
        ensures requests { self.new.requests ≡ self.old.requests }
        ensures size { length self.new.last.items ≡ length self.old.last.items }
        ensures others { (u : ℕ) → u ≢ unit → last_in self.new u ≡ last_in self.old u }
        ensures here { last_in self.new unit ≡ (if moves (settings_of basis.now) unit then None
            else last_in self.old unit) }
    {
        if basis.moves(unit) {
            self.last[unit] = None;
        }
    }

    /// Forgets where the units claimed last that may have moved.
    pub fn break_off(&mut self, basis: &Basis<'_>)
        ensures { (claims : HeardClaims) → KnowsClaims (settings_of basis.now) self.old claims
            → KnowsClaims (settings_of basis.now) self.new (broken_off true claims) }
    {
        for unit in 0..self.last.len() {
            self.forget(basis, unit);
        }
    }

    // Notes a claim of a unit.
    fn note_unit(&mut self, basis: &Basis<'_>, unit: usize, source: u8)
        ensures taken { self.new.taken ≡ self.old.taken }
        ensures least { self.new.least ≡ self.old.least }
        ensures claimed { self.new.claimed ≡ self.old.claimed }
        ensures requests { self.new.requests ≡ self.old.requests }
        ensures size { length self.new.last.items ≡ length self.old.last.items }
        ensures none { basis.now.part ≡ true → (u : ℕ) → last_in self.new u ≡ last_in self.old u }
        ensures others { (u : ℕ) → u ≢ unit → last_in self.new u ≡ last_in self.old u }
        ensures here { basis.now.part ≡ false → unit < length self.old.last.items
            → last_in self.new unit ≡ Some source }
    {
        if !basis.part && unit < self.last.len() {
            self.last[unit] = Some(source);
        }
    }

    // Notes a claim of no unit.
    fn note_stranger(&mut self, source: u8)
        ensures last { self.new.last ≡ self.old.last }
        ensures least { self.new.least ≡ self.old.least }
        ensures claimed { self.new.claimed ≡ self.old.claimed }
        ensures requests { self.new.requests ≡ self.old.requests }
        ensures size { length self.new.taken.items ≡ length self.old.taken.items }
        ensures others { (a : ℕ) → a ≢ source → taken_in self.new a ≡ taken_in self.old a }
        ensures null { 254 ≤ source → taken_in self.new source ≡ taken_in self.old source }
        ensures here { source < 254 → length self.old.taken.items ≡ 256 → taken_in self.new source ≡ true }
    {
        let place = usize::from(source);
        if source < 254 && place < self.taken.len() {
            self.taken[place] = true;
        }
    }

    // Notes that a NAME claimed an address.
    fn note_name(&mut self, source: u8, name: u64)
        ensures last { self.new.last ≡ self.old.last }
        ensures taken { self.new.taken ≡ self.old.taken }
        ensures claimed { self.new.claimed ≡ self.old.claimed }
        ensures requests { self.new.requests ≡ self.old.requests }
        ensures size { length self.new.least.items ≡ length self.old.least.items }
        ensures others { (a : ℕ) → a ≢ source → least_in self.new a ≡ least_in self.old a }
        ensures here { length self.old.least.items ≡ 256
            → least_in self.new source ≡ Some (smaller_name name (least_in self.old source)) }
    {
        let place = usize::from(source);
        if place < self.least.len() {
            self.least[place] = Some(smaller(name, self.least[place]));
        }
    }

    // Notes that a unit claimed an address.
    fn note_claimed(&mut self, basis: &Basis<'_>, unit: usize, source: u8)
        ensures last { self.new.last ≡ self.old.last }
        ensures taken { self.new.taken ≡ self.old.taken }
        ensures least { self.new.least ≡ self.old.least }
        ensures requests { self.new.requests ≡ self.old.requests }
        ensures size { length self.new.claimed.items ≡ length self.old.claimed.items }
        ensures others { (i : ℕ) → i ≢ unit * 256 + source
            → slice_index_or self.new.claimed.items i false ≡ slice_index_or self.old.claimed.items i false }
        ensures here { unit < length basis.now.plan.now.units.items
            → unit * 256 + source < length self.old.claimed.items
            → slice_index_or self.new.claimed.items (unit * 256 + source) false ≡ true }
    {
        if unit >= basis.plan.units.len() {
            return;
        }
        let place = unit * ADDRESSES + usize::from(source);
        if place < self.claimed.len() {
            self.claimed[place] = true;
        }
    }

    /// Notes a claim: of this unit, if it is one, from this source, by this NAME.
    pub fn hear(&mut self, basis: &Basis<'_>, unit: Option<usize>, source: u8, name: u64)
        requires { IfSome unit (λ u. u < length basis.now.plan.now.units.items) }
        ensures { (claims : HeardClaims) → KnowsClaims (settings_of basis.now) self.old claims
            → KnowsClaims (settings_of basis.now) self.new
            (with_claim (record { unit = unit; source = source; name = name }) claims) }
    {
        self.note_name(source, name);
        match unit {
            Some(unit) => {
                self.note_unit(basis, unit, source);
                self.note_claimed(basis, unit, source);
            }
            None => self.note_stranger(source),
        }
    }
}
