//! What gateways hand on from bus to bus.
ghost use Rattle.std.specs.Prelude.{◌≡◌, ℕ, List, length, Some};
ghost use Rattle.std.specs.List.{HoldsAt, slice_get};
ghost use Rattle.j39_network.specs.Records.{signals_in};
ghost use Rattle.j39_network.specs.SoundSignals.{SoundSignals};
ghost use Rattle.j39_network.specs.declared.plan.Plan.{Plan};
ghost use Rattle.j39_network.specs.declared.plan.group_plan.GroupPlan.{GroupPlan};
ghost use Rattle.j39_signal.specs.declared.signal_parts.SignalParts.{SignalParts};
ghost use Rattle.j39_world.specs.Sound.{AreReportsSound};
ghost use Rattle.j39_world.specs.World.{World};
ghost use Rattle.j39_vehicle_laws.specs.HandedOn.{Forwarded, Gateway, IsFaithful, IsFromOrigin, ReadsAsBefore};
ghost use Rattle.j39_vehicle_laws.specs.HandedOn.{forwarded_bytes, Link, AreLinks, IsFromFirst};

/// What a unit reports of what a gateway hands on carries what was begun on the other bus, where reports are sound on
/// both (`begun`), and so behind however many gateways (`at_last`); and a signal that goes into another one reads there
/// as it read before, or is unset (`read`).
pub fn what_is_read_was_written()
    ensures begun { (g : Gateway) (carried : ℕ → List ℕ → List ℕ) (from to : World) → AreReportsSound from
        → AreReportsSound to
        → IsFaithful g carried from to → IsFromOrigin g carried from to }
    ensures at_last { (from : World) (l : Link) (ls : List Link) → AreReportsSound from → AreLinks from l ls
        → IsFromFirst from l ls }
    ensures read { (plan : Plan) → SoundSignals plan → (place : ℕ) (group : GroupPlan)
        → slice_get plan.groups.items place ≡ Some group
        → (s : SignalParts) (before : List ℕ) (m : Forwarded group s before)
        → HoldsAt (λ t. ReadsAsBefore s before t (forwarded_bytes m))
        (signals_in group (length m.start)) m.write.place }
{}
