//! What is noted at a claim.
ghost use Rattle.std.specs.Prelude.{◌≡◌, ◌<◌, IfSome, length, OnOk};
ghost use Rattle.j39_id.specs.FrameMeaning.{name_in};
ghost use Rattle.j39_audit.specs.Looking.{claim_noted, claim_of_unit, claim_place};
ghost use Rattle.j39_audit.specs.Looking.{has_to_give_way, has_to_say_cannot, may_claim, may_move_to};
ghost use Rattle.j39_audit.specs.inside.Recalling.{Notes, known_by, settings_of};

use crate::basis::Basis;
use crate::frame_marks::{is_above_unplanned, is_claiming, note_if};
use crate::known::Known;
use crate::mark::{Mark, Word, make_mark};
use crate::senders::gives_way;
use crate::tally::MarkTally;
use j39_id::addresses::NULL_ADDRESS;
use j39_id::{Frame, Name};
use std::alloc::AllocError;

// Whether a unit that claims has to give way by this NAME.
fn has_to_give_way(basis: &Basis<'_>, known: &Known, name: u64, unit: usize) -> bool
    requires { unit < length basis.now.plan.now.units.items }
    ensures { result ≡ has_to_give_way (settings_of basis.now) (known_by known.now) name unit }
{
    is_claiming(basis, unit) && gives_way(basis, known, unit, name)
}

// Whether it has to say that it can't claim an address.
fn has_to_say_cannot(basis: &Basis<'_>, known: &Known, name: u64, unit: usize) -> bool
    requires { unit < length basis.now.plan.now.units.items }
    ensures { result ≡ has_to_say_cannot (settings_of basis.now) (known_by known.now) name unit }
{
    !Name::from_bits(name).is_arbitrary() && has_to_give_way(basis, known, name, unit)
}

// Whether it may go to an address, where it has to give way.
fn may_move_to(basis: &Basis<'_>, known: &Known, name: u64, unit: usize, address: u8) -> bool
    requires { unit < length basis.now.plan.now.units.items }
    ensures { result ≡ may_move_to (settings_of basis.now) (known_by known.now) name unit address }
{
    Name::from_bits(name).is_arbitrary()
        && (basis.is_not_kept(address) && has_to_give_way(basis, known, name, unit))
}

// Whether it may claim an address.
fn may_claim(basis: &Basis<'_>, known: &Known, name: u64, unit: usize, address: u8) -> bool
    requires { unit < length basis.now.plan.now.units.items }
    ensures { result ≡ may_claim (settings_of basis.now) (known_by known.now) name unit address }
{
    basis.is_address(unit, address) && is_claiming(basis, unit)
        || may_move_to(basis, known, name, unit, address)
}

// Notes what is wrong with where a unit claims, by this NAME.
fn note_place(
    tally: &mut MarkTally,
    basis: &Basis<'_>,
    known: &Known,
    frame: &Frame,
    name: u64,
    line: u64,
    unit: usize,
) -> Result<(), AllocError>
    requires name { name ≡ name_in frame.now }
    requires unit { unit < length basis.now.plan.now.units.items }
    ensures { OnOk result (Notes tally.old tally.new
        (claim_place (settings_of basis.now) (known_by known.now) frame.now line unit)) }
{
    let source = frame.ident.sa;
    if source == NULL_ADDRESS {
        let right = has_to_say_cannot(basis, known, name, unit);
        return note_if(tally, !right, make_mark(Word::Cannot, unit), line, 0);
    }
    let right = may_claim(basis, known, name, unit, source);
    let mark = make_mark(Word::Address, unit);
    note_if(tally, !right, mark, line, u64::from(source))
}

// Notes what is wrong with a claim of a unit, by this NAME.
fn note_claim_of_unit(
    tally: &mut MarkTally,
    basis: &Basis<'_>,
    known: &Known,
    frame: &Frame,
    name: u64,
    line: u64,
    unit: usize,
) -> Result<(), AllocError>
    requires name { name ≡ name_in frame.now }
    requires unit { unit < length basis.now.plan.now.units.items }
    ensures { OnOk result (Notes tally.old tally.new
        (claim_of_unit (settings_of basis.now) (known_by known.now) frame.now line unit)) }
{
    note_place(tally, basis, known, frame, name, line, unit)?;
    let urgent = is_above_unplanned(basis, frame);
    note_if(tally, urgent, make_mark(Word::Urgent, unit), line, 0)?;
    Ok(())
}

/// Notes what is wrong with a claim of this unit, if it is of one.
pub(crate) fn note_claim(
    tally: &mut MarkTally,
    basis: &Basis<'_>,
    known: &Known,
    frame: &Frame,
    name: u64,
    line: u64,
    claimant: Option<usize>,
) -> Result<(), AllocError>
    requires name { name ≡ name_in frame.now }
    requires unit { IfSome claimant (λ u. u < length basis.now.plan.now.units.items) }
    ensures { OnOk result (Notes tally.old tally.new
        (claim_noted (settings_of basis.now) (known_by known.now) frame.now line claimant)) }
{
    match claimant {
        Some(unit) => note_claim_of_unit(tally, basis, known, frame, name, line, unit),
        None => {
            let stranger = make_mark(Word::Stranger, usize::from(frame.ident.sa));
            note_if(tally, !basis.has_strangers(), stranger, line, name)
        }
    }
}
