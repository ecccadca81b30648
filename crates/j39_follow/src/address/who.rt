//! Who stands behind an address.
ghost use Rattle.std.specs.Prelude.{◌≡◌, ◌<◌, ◌+◌, ℕ, List, length, IfSome, Some, true, false};
ghost use Rattle.j39_id.specs.declared.frame.Frame.{Frame as AFrame};
ghost use Rattle.std.specs.List.{slice_get};
ghost use Rattle.j39_network.specs.declared.plan.unit_plan.UnitPlan.{UnitPlan as AUnitPlan};
ghost use Rattle.j39_follow.specs.Contests.{likely_named as likely_who};
ghost use Rattle.j39_follow.specs.Who.{IsWho, MayHold, is_of_any as is_any, numbered_unit as first_numbered};
ghost use Rattle.j39_follow.specs.Who.{unit_of_kind as first_of_kind, unit_of_name as first_named};
ghost use Rattle.j39_follow.specs.inside.Likeliest.{IsBelowBest, IsBestOf, IsNotBelow};
ghost use Rattle.j39_follow.specs.inside.Recounting.{Recounts};

use crate::address::holders::Holders;
use j39_id::Name;
use j39_network::{Plan, kind_of_name};

/// Who stands behind an address of a log. Units are given by their places, from 0.
#[derive(Clone, Copy)]
pub enum Who {
    /// The unit whose NAME holds the address.
    Holder(usize),
    /// A NAME that isn't planned, and holds it.
    Stranger(u64),
    /// The unit that prefers the address, of which nothing was reported yet, or that is likely to claim it again.
    Likely(usize),
    /// A NAME that isn't planned, and is likely to claim the address again.
    LikelyStranger(u64),
    /// Nobody that is known.
    Unknown,
}

impl Who {
    ghost use Rattle.std.specs.Prelude.{◌≡◌};
    ghost use Rattle.j39_follow.specs.Who.{unit_of, stranger_of};

    /// The unit of the plan, if it is one.
    pub fn unit(self) -> Option<usize>
        ensures { result ≡ unit_of self }
    {
        match self {
            Who::Holder(unit) | Who::Likely(unit) => Some(unit),
            Who::Stranger(_) | Who::LikelyStranger(_) | Who::Unknown => None,
        }
    }
}

// The first unit with a number whose NAME this is, by its place.
fn numbered_unit(plan: &Plan, name: u64) -> Option<usize>
    ensures { result ≡ first_numbered plan.now name }
{
    plan.units
        .as_slice()
        .iter()
        .position(|unit| !unit.any_identity && unit.name.to_bits() == name)
}

// The first unit of any serial number that is of the kind of this NAME, by its place.
fn unit_of_kind(plan: &Plan, name: u64) -> Option<usize>
    ensures { result ≡ first_of_kind plan.now name }
{
    let kind = kind_of_name(Name::from_bits(name));
    plan.units.as_slice().iter().position(|unit| unit.any_identity
        && kind_of_name(unit.name) == kind)
}

/// The unit of a NAME, by its place.
pub fn unit_named(plan: &Plan, name: u64) -> Option<usize>
    ensures { result ≡ first_named plan.now name }
{
    match numbered_unit(plan, name) {
        Some(unit) => Some(unit),
        None => unit_of_kind(plan, name),
    }
}

// Whether the unit at a place, if there is one, is of any serial number.
fn is_any_at(plan: &Plan, place: usize) -> bool
    ensures { result ≡ is_any plan.now (Some place) }
{
    if place < plan.units.len() {
        let unit = &plan.units[place];
        unit.any_identity
    } else {
        false
    }
}

/// Whether there is such a unit, and it is of any serial number.
pub(crate) fn is_of_any(plan: &Plan, unit: Option<usize>) -> bool
    ensures { result ≡ is_any plan.now unit }
{
    match unit {
        Some(place) => is_any_at(plan, place),
        None => false,
    }
}

// Whether nothing was reported yet of the unit at a place, which prefers the address.
fn may_hold(plan: &Plan, holders: &Holders, address: u8, place: usize) -> bool
    requires { place < length plan.now.units.items }
    ensures may { result ≡ true → (frames : List AFrame) (unit : AUnitPlan) → Recounts plan.now holders.now frames
        → slice_get plan.now.units.items place ≡ Some unit → MayHold plan.now frames address place unit }
    ensures not { result ≡ false → (frames : List AFrame) (unit : AUnitPlan) → Recounts plan.now holders.now frames
        → slice_get plan.now.units.items place ≡ Some unit → ¬ MayHold plan.now frames address place unit }
{
    let unit = &plan.units[place];
    if unit.address.number() != address {
        return false;
    }
    !holders.was_heard(place)
}

// Whether the NAME is below that of the best unit so far.
fn is_below(plan: &Plan, name: Name, best: Option<usize>) -> bool
    requires { IfSome best (λ b. b < length plan.now.units.items) }
    ensures below { result ≡ true → IsBelowBest plan.now name best }
    ensures not_below { result ≡ false → IsNotBelow plan.now name best }
{
    match best {
        Some(best) => name.to_bits() < plan.units[best].name.to_bits(),
        None => true,
    }
}

// The likelier one of the best unit so far and the one at this place.
fn likelier(
    plan: &Plan,
    holders: &Holders,
    address: u8,
    best: Option<usize>,
    place: usize,
) -> Option<usize>
    requires here { place < length plan.now.units.items }
    requires best { IfSome best (λ b. b < length plan.now.units.items) }
    ensures best { (frames : List AFrame) → Recounts plan.now holders.now frames
        → IsBestOf plan.now place frames address best
        → IsBestOf plan.now (place + 1) frames address result }
    ensures there { IfSome result (λ b. b < length plan.now.units.items) }
{
    let unit = &plan.units[place];
    if !may_hold(plan, holders, address, place) {
        return best;
    }
    if !is_below(plan, unit.name, best) {
        return best;
    }
    Some(place)
}

// The unit that would be the first to claim the address, of those of which nothing was reported.
fn likeliest(plan: &Plan, holders: &Holders, address: u8) -> Option<usize>
    ensures { (frames : List AFrame) → Recounts plan.now holders.now frames
        → IsBestOf plan.now (length plan.now.units.items) frames address result }
{
    let mut best = None;
    for place in 0..plan.units.len() {
        best = likelier(plan, holders, address, best, place);
    }
    best
}

/// Who stands behind an address, by the frames that were heard.
pub(crate) fn who_at(plan: &Plan, holders: &Holders, address: u8) -> Who
    ensures { (frames : List AFrame) → Recounts plan.now holders.now frames → IsWho plan.now frames address result }
{
    if let Some(name) = holders.holder(address) {
        return match unit_named(plan, name) {
            Some(unit) => Who::Holder(unit),
            None => Who::Stranger(name),
        };
    }
    match likeliest(plan, holders, address) {
        Some(unit) => Who::Likely(unit),
        None => Who::Unknown,
    }
}

/// The unit of a NAME, or the NAME, as one that is likely.
pub(crate) fn likely_named(plan: &Plan, name: u64) -> Who
    ensures { result ≡ likely_who plan.now name }
{
    match unit_named(plan, name) {
        Some(unit) => Who::Likely(unit),
        None => Who::LikelyStranger(name),
    }
}
