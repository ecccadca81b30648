//! Which units of a plan hold their planned addresses, whatever the others do, and which are alone there.
ghost use Rattle.std.specs.Prelude.{◌≡◌, length};
ghost use Rattle.j39_findings.specs.Standing.{AreFirsts, DecidesAtEach, AreTwoThere, DecidesWhoIsAlone};
ghost use Rattle.j39_findings.specs.Standing.{DecidesWhoStays, IsMover, alone_of, is_alone_by, is_first_by, is_least};
ghost use Rattle.j39_findings.specs.Standing.{is_mover_by, is_settled, smaller, stays_by, stays_of};

use j39_claim::AddressSet;
use j39_id::Name;
use j39_id::addresses::is_in_pool;
use j39_network::{Plan, UnitPlan};

/// The smallest NAME that is planned at each address.
type Firsts = [Option<Name>; 256];

fn smaller(least: Option<Name>, name: Name) -> Name
    ensures { result ≡ smaller least name }
{
    match least {
        Some(least) if least < name => least,
        _ => name,
    }
}

fn is_least(least: Option<Name>, name: Name) -> bool
    ensures { result ≡ is_least least name }
{
    match least {
        Some(least) => name <= least,
        None => true,
    }
}

fn is_first(firsts: &Firsts, unit: &UnitPlan) -> bool
    ensures { result ≡ is_first_by firsts.now unit.now }
{
    is_least(firsts[usize::from(unit.address.number())], unit.name)
}

fn firsts_of(units: &[UnitPlan]) -> Firsts
    ensures { AreFirsts units.now (length units.now) result }
{
    let mut firsts = [None; 256];
    for unit in units {
        let place = usize::from(unit.address.number());
        firsts[place] = Some(smaller(firsts[place], unit.name));
    }
    firsts
}

// At which addresses more than one unit is planned.
fn shared_addresses(units: &[UnitPlan]) -> [bool; 256]
    ensures { DecidesAtEach (AreTwoThere units.now (length units.now)) result }
{
    let mut planned = [false; 256];
    let mut shared = [false; 256];
    for unit in units {
        let place = usize::from(unit.address.number());
        shared[place] = shared[place] || planned[place];
        planned[place] = true;
    }
    shared
}

// It may choose, and isn't the first at its planned address.
fn is_mover(firsts: &Firsts, unit: &UnitPlan) -> bool
    ensures { result ≡ is_mover_by firsts.now unit.now }
{
    unit.name.is_arbitrary() && !is_first(firsts, unit)
}

// The smallest NAME of these.
fn mover_of(units: &[UnitPlan], firsts: &Firsts) -> Option<Name>
    ensures { IsMover units.now (length units.now) firsts.now result }
{
    let mut mover = None;
    for unit in units {
        if is_mover(firsts, unit) {
            mover = Some(smaller(mover, unit.name));
        }
    }
    mover
}

// Of the units that the plan has: it is the first at its planned address, and none to which others move has to go
// there.
fn stays_among(firsts: &Firsts, mover: Option<Name>, unit: &UnitPlan) -> bool
    ensures { result ≡ stays_by firsts.now mover unit.now }
{
    is_first(firsts, unit) && (!is_in_pool(unit.address.number()) || is_least(mover, unit.name))
}

// It is the only one that is planned at its address, and none moves there: strangers don't know what is kept free.
fn is_alone_among(
    shared: &[bool; 256],
    mover: Option<Name>,
    strangers: bool,
    kept: &AddressSet,
    unit: &UnitPlan,
) -> bool
    ensures { result ≡ is_alone_by shared.now mover strangers kept.now unit.now }
{
    !shared[usize::from(unit.address.number())]
        && (!is_in_pool(unit.address.number())
            || !strangers && (kept.has(unit.address) || mover.is_none()))
}

// Where strangers come a unit that may choose may have to move for one.
fn is_settled(strangers: bool, unit: &UnitPlan) -> bool
    ensures { result ≡ is_settled strangers unit.now }
{
    !strangers || !unit.name.is_arbitrary()
}

/// What reports which units of a plan stay, and which are alone at their addresses.
#[derive(Drop)]
pub struct Standing {
    /// The smallest NAME that is planned at each address.
    pub firsts: [Option<Name>; 256],
    /// Whether more than one unit is planned at each address.
    pub shared: [bool; 256],
    /// The smallest NAME of those that may have to move.
    pub mover: Option<Name>,
    /// Whether units that stand in no plan may come.
    pub strangers: bool,
}

impl Standing {
    pub fn new(plan: &Plan) -> Self
        ensures stays { DecidesWhoStays plan.now (stays_of result) }
        ensures alone { DecidesWhoIsAlone plan.now (alone_of result plan.now.keep_free) }
    {
        let firsts = firsts_of(plan.units.as_slice());
        let mover = mover_of(plan.units.as_slice(), &firsts);
        Standing {
            firsts,
            shared: shared_addresses(plan.units.as_slice()),
            mover,
            strangers: plan.strangers > 0,
        }
    }

    pub fn stays(&self, unit: &UnitPlan) -> bool
        ensures { result ≡ stays_of self.now unit.now }
    {
        stays_among(&self.firsts, self.mover, unit) && is_settled(self.strangers, unit)
    }

    /// Whether no other unit ever holds the unit's planned address, where these are kept free.
    pub fn is_alone(&self, kept: &AddressSet, unit: &UnitPlan) -> bool
        ensures { result ≡ alone_of self.now kept.now unit.now }
    {
        is_alone_among(&self.shared, self.mover, self.strangers, kept, unit)
    }
}
