//! Laws on plans with strangers.
ghost use Rattle.std.specs.Prelude.{◌≡◌, ◌+◌, ◌<◌, ◌≤◌, ◌⊎◌, ℕ, List, Some, length, true};
ghost use Rattle.j39_id.specs.Addresses.{in_pool};
ghost use Rattle.j39_id.specs.Limits.{unit_limit};
ghost use Rattle.j39_id.specs.Name.{is_arbitrary};
ghost use Rattle.j39_claim.specs.ClaimRule.{IsFree};
ghost use Rattle.j39_findings.specs.Findings.{Clean};
ghost use Rattle.j39_network.specs.declared.plan.Plan.{Plan as Plans};
ghost use Rattle.j39_network.specs.declared.plan.unit_plan.UnitPlan.{UnitPlan as PlannedUnits};
ghost use Rattle.j39_world.specs.Opening.{AreNamesDistinct};
ghost use Rattle.j39_network.specs.PlannedUnits.{units_of, unit_at};
ghost use Rattle.j39_world.specs.Sound.{AreAddressesDifferent, AreAddressesSound, IsQuiet};
ghost use Rattle.j39_world.specs.SoundPlan.{AlwaysBeside};
ghost use Rattle.j39_network.specs.Staying.{StaysBeside};
ghost use Rattle.j39_world.specs.HeldAddresses.{HoldsPlanned};
ghost use Rattle.j39_world.specs.Strangers.{ComeBesideLive, HasStrangers};

/// Units that stand in no plan may come beside those of a plan without findings, at most so many as it has, each of
/// which may choose and has a NAME of its own: in every world of every run of all of them, with all lawful choices,
/// whatever the strangers know of what is kept free, addresses are sound. Each unit that is on holds one, a fixed unit
/// its own, and where no claim is undelivered they are pairwise different. A planned unit that may choose always has an
/// address to move to that the plan doesn't keep free, so that what planned units do that choose no other is among
/// these runs.
pub fn strangers_keep_addresses()
    ensures sound { (plan : Plans) → Clean plan → AlwaysBeside plan AreAddressesSound }
    ensures different { (plan : Plans) → Clean plan
        → AlwaysBeside plan (λ joined w. IsQuiet w.claims → AreAddressesDifferent w) }
    ensures room { (plan : Plans) → Clean plan → AlwaysBeside plan (λ joined w. (u : ℕ) → u < length plan.units.items
        → is_arbitrary (unit_at (units_of plan) u).name ≡ true → (b : ℕ)
        × IsFree (unit_at (units_of plan) u) (w.stations u) b) }
{}

/// With strangers, in every world of every run, a planned unit that stays and may not choose holds its planned address
/// while it is on; each planned unit holds its planned address, or one of 128 to 247 where it may choose.
pub fn who_stays_with_strangers()
    ensures held { (plan : Plans) (u : ℕ) → u < length plan.units.items → StaysBeside plan.strangers (units_of plan) u
        → AlwaysBeside plan (λ joined w. HoldsPlanned (units_of joined) w u) }
    ensures planned_or_pool { (plan : Plans) → AlwaysBeside plan (λ joined w. (u a : ℕ) → u < length plan.units.items
        → (w.stations u).on ≡ true → (w.stations u).address ≡ Some a
        → (a ≡ (unit_at (units_of plan) u).preferred)
        ⊎ ((in_pool a ≡ true) × (is_arbitrary (unit_at (units_of plan) u).name ≡ true)
        × ¬ StaysBeside plan.strangers (units_of plan) u)) }
{}

/// And they can come: beside units whose NAMEs differ, of a plan that has strangers, as many of them as it has,
/// while there are no more units in all than a plan may have.
pub fn strangers_can_come()
    ensures { (plan : Plans) → AreNamesDistinct (units_of plan) → (k : ℕ) → 0 < plan.strangers → k ≤ plan.strangers
        → length plan.units.items + k ≤ unit_limit
        → (joined : Plans) × (strangers : List PlannedUnits) × (length strangers ≡ k)
        × HasStrangers plan joined strangers }
{}

/// Units may come beside those of a live plan without findings that need no more addresses of 128 to 247 than it has
/// of strangers, such as a service tool: those that claim, at no address of an end of a flow or of a unit that never
/// claims, and where they may not choose, at none of another unit that may not; and those that never claim, each at an
/// address of its own outside 128 to 247. Then the plan of all of them, which keeps nothing free, is without findings
/// too, so that each law of such a plan holds in every run of all of them: they disturb no message. What they send
/// themselves is none of its flows.
pub fn strangers_disturb_no_message()
    ensures { (plan joined : Plans) (strangers : List PlannedUnits) → Clean plan → ComeBesideLive plan joined strangers
        → Clean joined }
{}
