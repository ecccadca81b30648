//! Laws on where units stand.
ghost use Rattle.std.specs.Prelude.{◌≡◌, ◌<◌, ◌≤◌, ◌⊎◌, ℕ, List, Some, length, false, true};
ghost use Rattle.j39_id.specs.Addresses.{in_pool};
ghost use Rattle.j39_id.specs.Name.{is_arbitrary};
ghost use Rattle.j39_claim.specs.ClaimRule.{PlannedUnit as PlannedUnits};
ghost use Rattle.j39_findings.specs.Findings.{Clean, Holds};
ghost use Rattle.j39_network.specs.Kinds.{AreDistinctUnits};
ghost use Rattle.j39_network.specs.VehiclePlans.{IsVehicleOf};
ghost use Rattle.j39_network.specs.declared.plan.Plan.{Plan as Plans};
ghost use Rattle.j39_findings.specs.declared.checking.finding.Finding.TheVariants.{SameFixedAddress, SilentAddress};
ghost use Rattle.j39_network.specs.declared.steps.Step.{Step as Steps};
ghost use Rattle.j39_network.specs.PlannedUnits.{units_of, unit_at};
ghost use Rattle.j39_world.specs.Run.{Run};
ghost use Rattle.j39_network.specs.Staying.{IsAloneThere, StayAlike, Stays};
ghost use Rattle.j39_world.specs.HeldAddresses.{ArePlannedApart, ArePlannedApartTo, HoldsAlone, HoldsPlanned};
ghost use Rattle.j39_world.specs.HeldAddresses.{StaysByOthers};
ghost use Rattle.j39_world.specs.World.{World, all_off};

/// In every world of every run of each plan, with all lawful choices, a unit that stays holds its planned address while
/// it is on. Whether it stays follows, in rising order of NAME, from those of smaller NAME; a fixed unit stays where no
/// two fixed units have one address, nor two units of which one doesn't claim.
pub fn who_stays()
    ensures held { (plan : Plans) (steps : List Steps) (w : World) → Run plan all_off steps w
        → (u : ℕ) → Stays (units_of plan) u → HoldsPlanned (units_of plan) w u }
    ensures by_others { (units : List PlannedUnits) (u : ℕ) → Stays units u → StaysByOthers units u }
    ensures from_others { (units : List PlannedUnits) (u : ℕ) → StaysByOthers units u → Stays units u }
    ensures fixed { (plan : Plans) → ((i j : ℕ) → ¬ Holds plan (SameFixedAddress i j))
        → ((i j : ℕ) → ¬ Holds plan (SilentAddress i j))
        → (u : ℕ) → u < length (units_of plan) → is_arbitrary (unit_at (units_of plan) u).name ≡ false
        → Stays (units_of plan) u }
{}

/// Where no two units are planned with one address no unit ever moves: in every world of every run, with all lawful
/// choices, each unit that is on holds its planned address.
pub fn planned_addresses_stay()
    ensures { (plan : Plans) (steps : List Steps) (w : World) → ArePlannedApart (units_of plan)
        → Run plan all_off steps w
        → (u : ℕ) → HoldsPlanned (units_of plan) w u }
{}

/// Where no two of the units whose NAMEs are at most some number are planned with one address, none of these ever
/// moves, whatever units of larger NAMEs do: in every world of every run, with all lawful choices, each of them that is
/// on holds its planned address.
pub fn smaller_names_are_undisturbed()
    ensures { (plan : Plans) (limit : ℕ) (steps : List Steps) (w : World) → ArePlannedApartTo limit (units_of plan)
        → Run plan all_off steps w → (u : ℕ) → (unit_at (units_of plan) u).name ≤ limit
        → HoldsPlanned (units_of plan) w u }
{}

/// In every world of every run of each plan, with all lawful choices, the address that a unit holds which is on is its
/// planned one, or one of 128 to 247 where it may choose and isn't a unit that stays.
pub fn units_hold_planned_or_pool_addresses()
    ensures { (plan : Plans) (steps : List Steps) (w : World) → Run plan all_off steps w
        → (u a : ℕ) → (w.stations u).on ≡ true → (w.stations u).address ≡ Some a
        → (a ≡ (unit_at (units_of plan) u).preferred)
        ⊎ ((in_pool a ≡ true) × (is_arbitrary (unit_at (units_of plan) u).name ≡ true) × ¬ Stays (units_of plan) u) }
{}

/// In every world of every run of a plan without findings, with all lawful choices, a unit that is alone at its planned
/// address holds it while it is on, and no other unit that is on ever holds it.
pub fn alone_units_are_undisturbed()
    ensures { (plan : Plans) (steps : List Steps) (w : World) → Clean plan → Run plan all_off steps w
        → (u : ℕ) → IsAloneThere plan.keep_free (units_of plan) u → HoldsAlone (units_of plan) w u }
{}

/// In every world of every run of a plan without findings, with all lawful choices, a unit that never claims holds its
/// planned address while it is on, and no other unit that is on ever holds it.
pub fn silent_units_are_undisturbed()
    ensures { (plan : Plans) (steps : List Steps) (w : World) → Clean plan → Run plan all_off steps w
        → (u : ℕ) → u < length (units_of plan) → (unit_at (units_of plan) u).claims ≡ false
        → HoldsAlone (units_of plan) w u }
{}

/// The same units stay in the plan and in that of each vehicle, also beside strangers, and the same are alone at their
/// addresses, whatever the serial numbers of the boxes are, where no two units of the plan may be one.
pub fn units_stay_in_each_vehicle()
    ensures { (plan vehicle : Plans) → IsVehicleOf plan vehicle → AreDistinctUnits plan
        → StayAlike plan.keep_free plan.strangers (units_of plan) (units_of vehicle) }
{}
