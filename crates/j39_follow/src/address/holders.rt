//! Which NAME holds which address.
ghost use Rattle.std.specs.Prelude.{◌≡◌, ◌≢◌, ◌<◌, ◌≤◌, ◌+◌, ◌++◌, ◌∷◌, [], ℕ, List, Option, Some, None, true, false};
ghost use Rattle.std.specs.Prelude.{length, slice_set, IfSome};
ghost use Rattle.std.specs.List.{slice_get};
ghost use Rattle.j39_id.specs.Addresses.{null_address};
ghost use Rattle.j39_id.specs.Limits.{unit_limit};
ghost use Rattle.j39_id.specs.declared.frame.Frame.{Frame as AFrame};
ghost use Rattle.j39_network.specs.declared.plan.Plan.{Plan as APlan};
ghost use Rattle.j39_network.specs.declared.plan.unit_plan.UnitPlan.{UnitPlan as AUnitPlan};
ghost use Rattle.j39_follow.specs.Holders.{IsHolder, ClaimsOrCannot};
ghost use Rattle.j39_follow.specs.Who.{is_name_of as is_of_unit, unit_of_name};
ghost use Rattle.j39_follow.specs.inside.Recounting.{HasNameAt, IsHeldByUnit, IsLatestBelow, IsLeft, IsMarked, IsMoved};
ghost use Rattle.j39_follow.specs.inside.Recounting.{Recounts, claimed_at, is_marked};

use crate::address::who::unit_named;
use j39_id::addresses::NULL_ADDRESS;
use j39_id::limits::UNIT_LIMIT;
use j39_id::{Frame, cannot_claim, carried_name, claims_address};
use j39_network::{Plan, UnitPlan};

// The addresses that units hold: 0 to 253.
const ADDRESSES: usize = NULL_ADDRESS as usize;

/// The NAME that holds each address, how many frames came before the claim of it, and the units of the plan of which
/// something was reported, by their places.
#[derive(Drop)]
pub(crate) struct Holders {
    names: [Option<u64>; ADDRESSES],
    claimed: [u64; ADDRESSES],
    heard: [bool; UNIT_LIMIT],
}

// A place for each address, all of them empty.
fn no_names() -> [Option<u64>; ADDRESSES]
    ensures { (a n : ℕ) → slice_get result a ≢ Some (Some n) }
{
    [None; ADDRESSES]
}

// Whether this is a NAME of the unit at a place, where the unit of the NAME is this one.
fn is_name_of(unit: &UnitPlan, place: usize, name: u64, found: Option<usize>) -> bool
    ensures { (plan : APlan) → found ≡ unit_of_name plan name → result ≡ is_of_unit plan place unit.now name }
{
    if unit.any_identity {
        found == Some(place)
    } else {
        unit.name.to_bits() == name
    }
}

impl Holders {
    pub fn new() -> Self
        ensures { (plan : APlan) → Recounts plan result [] }
    {
        Holders {
            names: no_names(),
            claimed: [0; ADDRESSES],
            heard: [false; UNIT_LIMIT],
        }
    }

    // The NAME at this place of the table.
    fn holder_at(&self, address: usize) -> Option<u64>
        ensures some { IfSome result (λ name. HasNameAt self.now address name) }
        ensures only { (name : ℕ) → HasNameAt self.now address name → result ≡ Some name }
    {
        if address < ADDRESSES {
            self.names[address]
        } else {
            None
        }
    }

    // Takes the NAME from the address that it holds.
    fn leave(&mut self, name: u64)
        ensures left { IsLeft self.old self.new name }
        ensures marks { self.new.heard ≡ self.old.heard }
        ensures claims { self.new.claimed ≡ self.old.claimed }
    {
        for address in 0..ADDRESSES {
            if self.names[address] == Some(name) {
                self.names[address] = None;
            }
        }
    }

    // Marks the unit of the NAME.
    fn mark(&mut self, plan: &Plan, name: u64)
        ensures marked { IsMarked plan.now self.old self.new name }
        ensures names { self.new.names ≡ self.old.names }
        ensures claims { self.new.claimed ≡ self.old.claimed }
    {
        let found = unit_named(plan, name);
        for place in 0..plan.units.len() {
            if is_name_of(&plan.units[place], place, name, found) {
                self.heard[place] = true;
            }
        }
    }

    // Puts the NAME at an address that it claims behind so many frames.
    fn put(&mut self, name: u64, address: u8, count: u64)
        requires { address < null_address }
        ensures room { address < length self.old.names }
        ensures names { self.new.names ≡ slice_set self.old.names address (Some name) }
        ensures claimed { self.new.claimed ≡ slice_set self.old.claimed address count }
        ensures marks { self.new.heard ≡ self.old.heard }
    {
        self.names[usize::from(address)] = Some(name);
        self.claimed[usize::from(address)] = count;
    }

    // Notes that the NAME claims this address behind so many frames, or could not claim one.
    fn note(&mut self, plan: &Plan, name: u64, place: Option<u8>, count: u64)
        requires { IfSome place (λ address. address < null_address) }
        ensures { IsMoved plan.now self.old self.new name place count }
    {
        self.leave(name);
        self.mark(plan, name);
        match place {
            Some(address) => self.put(name, address, count),
            None => {}
        }
    }

    /// Notes what a frame reports behind so many others.
    pub fn hear(&mut self, plan: &Plan, frame: &Frame, count: u64)
        ensures { (frames : List AFrame) → length frames ≡ count → Recounts plan.now self.old frames
            → Recounts plan.now self.new (frames ++ frame.now ∷ []) }
    {
        if claims_address(frame) {
            self.note(
                plan,
                carried_name(frame).to_bits(),
                Some(frame.ident.sa),
                count,
            );
        } else if cannot_claim(frame) {
            self.note(plan, carried_name(frame).to_bits(), None, count);
        }
    }

    /// The NAME that holds the address.
    pub fn holder(&self, address: u8) -> Option<u64>
        ensures { (plan : APlan) (frames : List AFrame) → Recounts plan self.now frames
            → IsHolder frames address result }
    {
        self.holder_at(usize::from(address))
    }

    // Whether a NAME of the unit at a place holds the address.
    fn is_of(&self, plan: &Plan, place: usize, unit: &UnitPlan, address: usize) -> bool
        ensures held { result ≡ true → IsHeldByUnit plan.now self.now place unit.now address }
        ensures not { result ≡ false → ¬ IsHeldByUnit plan.now self.now place unit.now address }
    {
        match self.holder_at(address) {
            Some(name) => is_name_of(unit, place, name, unit_named(plan, name)),
            None => false,
        }
    }

    // Whether the first of two addresses was claimed no later than the second.
    fn is_in_order(&self, first: u8, second: usize) -> bool
        requires first { first < null_address }
        requires second { second < null_address }
        ensures yes { result ≡ true → claimed_at self.now first ≤ claimed_at self.now second }
        ensures no { result ≡ false → claimed_at self.now second ≤ claimed_at self.now first }
    {
        self.claimed[usize::from(first)] <= self.claimed[second]
    }

    // Whether the best address so far, if there is one, was claimed no later than this one.
    fn is_later(&self, best: Option<u8>, address: usize) -> bool
        requires best { IfSome best (λ a. a < null_address) }
        requires there { address < null_address }
        ensures later { result ≡ true → (a : ℕ) → best ≡ Some a → claimed_at self.now a ≤ claimed_at self.now address }
        ensures not { result ≡ false → (a : ℕ) × (best ≡ Some a)
            × (claimed_at self.now address ≤ claimed_at self.now a) }
    {
        match best {
            Some(other) => self.is_in_order(other, address),
            None => true,
        }
    }

    // The one that was claimed last of the best address so far and the next, if NAMEs of the unit hold this one.
    fn later(
        &self,
        plan: &Plan,
        place: usize,
        unit: &UnitPlan,
        best: Option<u8>,
        address: usize,
    ) -> Option<u8>
        requires best { IfSome best (λ a. a < null_address) }
        requires there { address < null_address }
        ensures range { IfSome result (λ a. a < null_address) }
        ensures latest { IsLatestBelow plan.now self.now place unit.now address best
            → IsLatestBelow plan.now self.now place unit.now (address + 1) result }
    {
        if !self.is_of(plan, place, unit, address) {
            return best;
        }
        if !self.is_later(best, address) {
            return best;
        }
        Some(address as u8)
    }

    /// The address that was claimed last of those that NAMEs of the unit at a place hold.
    pub fn address(&self, plan: &Plan, place: usize, unit: &UnitPlan) -> Option<u8>
        ensures { IsLatestBelow plan.now self.now place unit.now null_address result }
    {
        let mut best = None;
        for address in 0..ADDRESSES {
            best = self.later(plan, place, unit, best, address);
        }
        best
    }

    /// Whether a NAME of the unit at this place claimed an address or could not.
    pub fn was_heard(&self, place: usize) -> bool
        requires { place < unit_limit }
        ensures { result ≡ is_marked self.now place }
    {
        self.heard[place]
    }
}
