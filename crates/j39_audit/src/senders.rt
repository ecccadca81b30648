//! Who sends from an address.
ghost use Rattle.std.specs.Prelude.{◌≡◌, ◌<◌, IfSome, Some, length};
ghost use Rattle.j39_audit.specs.Claiming.{first_there, is_another_there, is_claimed_last, is_strange, may_be};
ghost use Rattle.j39_audit.specs.Claiming.{sender_at};
ghost use Rattle.j39_audit.specs.Claiming.{gives_way, is_lost_to_another, is_name_below, sure_sender};
ghost use Rattle.j39_audit.specs.inside.Recalling.{IsWithinUnits, claimed_in, known_by, settings_of};

use crate::basis::Basis;
use crate::known::Known;
use j39_id::addresses::{NULL_ADDRESS, is_in_pool};

/// Who sends from an address.
#[derive(Clone, Copy)]
pub enum SureSender {
    /// The unit at this place, from 0.
    Unit(usize),
    /// No unit may be there.
    Nobody,
    /// It isn't sure.
    Unknown,
}

/// Whether a unit may be at an address.
#[tactic(auto, unfolding(crate::specs::Claiming::may_be))]
pub(crate) fn may_be(basis: &Basis<'_>, known: &Known, unit: usize, address: u8) -> bool
    ensures { result ≡ may_be (settings_of basis.now) (known_by known.now) unit address }
{
    match known.last(unit) {
        Some(last) => last == address,
        None => basis.is_address(unit, address),
    }
}

// Whether some unit claimed an address last.
fn is_claimed(basis: &Basis<'_>, known: &Known, address: u8) -> bool
    ensures { result ≡ is_claimed_last (settings_of basis.now) (known_by known.now) address }
{
    for unit in 0..basis.plan.units.len() {
        if known.last(unit) == Some(address) {
            return true;
        }
    }
    false
}

// Whether somebody may be at an address who isn't in the plan.
#[tactic(auto, unfolding(crate::specs::Claiming::is_strange))]
fn is_strange(basis: &Basis<'_>, known: &Known, address: u8) -> bool
    ensures { result ≡ is_strange (settings_of basis.now) (known_by known.now) address }
{
    known.is_taken(address)
        || (basis.has_strangers() && (is_in_pool(address) && !is_claimed(basis, known, address)))
}

// The first unit that may be at an address.
fn first_there(basis: &Basis<'_>, known: &Known, address: u8) -> Option<usize>
    ensures first { result ≡ first_there (settings_of basis.now) (known_by known.now) address }
    ensures inside { IfSome result (λ u. u < length basis.now.plan.now.units.items) }
{
    for unit in 0..basis.plan.units.len() {
        if may_be(basis, known, unit, address) {
            return Some(unit);
        }
    }
    None
}

// Whether another unit may be there than this, the first one that may.
fn is_another_there(basis: &Basis<'_>, known: &Known, address: u8, unit: usize) -> bool
    requires first { first_there (settings_of basis.now) (known_by known.now) address ≡ Some unit }
    requires inside { unit < length basis.now.plan.now.units.items }
    ensures { result ≡ is_another_there (settings_of basis.now) (known_by known.now) address unit }
{
    for other in unit + 1..basis.plan.units.len() {
        if may_be(basis, known, other, address) {
            return true;
        }
    }
    false
}

// The one unit that may be at an address.
fn sure_sender(basis: &Basis<'_>, known: &Known, address: u8) -> SureSender
    ensures sender { result ≡ sure_sender (settings_of basis.now) (known_by known.now) address
        (first_there (settings_of basis.now) (known_by known.now) address) }
    ensures inside { IsWithinUnits basis.now.plan.now result }
{
    match first_there(basis, known, address) {
        Some(unit) => {
            if is_another_there(basis, known, address, unit) {
                SureSender::Unknown
            } else {
                SureSender::Unit(unit)
            }
        }
        None => {
            if basis.has_strangers() {
                SureSender::Unknown
            } else {
                SureSender::Nobody
            }
        }
    }
}

/// Who sends from an address.
#[tactic(auto, unfolding(crate::specs::Claiming::sender_at))]
pub(crate) fn sender_at(basis: &Basis<'_>, known: &Known, address: u8) -> SureSender
    ensures sender { result ≡ sender_at (settings_of basis.now) (known_by known.now) address }
    ensures inside { IsWithinUnits basis.now.plan.now result }
{
    if is_strange(basis, known, address) {
        SureSender::Unknown
    } else {
        sure_sender(basis, known, address)
    }
}

// Whether a NAME that claimed an address lies below another one.
fn is_below(least: Option<u64>, name: u64) -> bool
    ensures { result ≡ is_name_below least name }
{
    match least {
        Some(least) => least < name,
        None => false,
    }
}

// Whether a unit claimed an address.
fn has_claimed(basis: &Basis<'_>, known: &Known, unit: usize, address: u8) -> bool
    requires { unit < length basis.now.plan.now.units.items }
    ensures { result ≡ claimed_in known.now unit address }
{
    if unit < basis.plan.units.len() {
        known.has_claimed(unit, address)
    } else {
        false
    }
}

// Whether a NAME below this one of a unit claimed an address that is one of the unit, or that it claimed too.
fn is_lost(basis: &Basis<'_>, known: &Known, unit: usize, name: u64, address: u8) -> bool
    requires { unit < length basis.now.plan.now.units.items }
    ensures { result ≡ is_lost_to_another (settings_of basis.now) (known_by known.now) unit name address }
{
    is_below(known.least(address), name)
        && (basis.is_address(unit, address) || has_claimed(basis, known, unit, address))
}

/// Whether a unit of this NAME has to give way to others.
pub(crate) fn gives_way(basis: &Basis<'_>, known: &Known, unit: usize, name: u64) -> bool
    requires { unit < length basis.now.plan.now.units.items }
    ensures { result ≡ gives_way (settings_of basis.now) (known_by known.now) unit name }
{
    for address in 0..NULL_ADDRESS {
        if is_lost(basis, known, unit, name, address) {
            return true;
        }
    }
    false
}
