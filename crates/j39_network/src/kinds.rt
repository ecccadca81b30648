//! What a plan reports of the boxes that its units are.
ghost use Rattle.std.specs.Prelude.{◌≡◌};
ghost use Rattle.j39_network.specs.Kinds.{kind_of_name, may_be_one};

use crate::plan::UnitPlan;
use j39_id::Name;

/// The kind of a NAME: all of it but the identity number, which is each box's own serial number (SAE J1939-81).
pub fn kind_of_name(name: Name) -> u64
    ensures { result ≡ kind_of_name name }
{
    name.to_bits() >> 21
}

/// Whether two units may be one: they are of one kind, and have one number, or one of the two is of any.
pub fn may_be_one(first: &UnitPlan, second: &UnitPlan) -> bool
    ensures { result ≡ may_be_one first.now second.now }
{
    kind_of_name(first.name) == kind_of_name(second.name)
        && (first.name == second.name || first.any_identity || second.any_identity)
}
