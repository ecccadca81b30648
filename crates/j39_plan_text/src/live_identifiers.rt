//! A law of identifiers on a live bus.
ghost use Rattle.std.specs.Prelude.{◌≡◌, ◌≢◌, ℕ, List, true};
ghost use Rattle.j39_findings.specs.Findings.{Clean};
ghost use Rattle.j39_network.specs.declared.plan.Plan.{Plan as Plans};
ghost use Rattle.j39_network.specs.declared.plan.flow_plan.FlowPlan.{FlowPlan as PlannedFlows};
ghost use Rattle.j39_network.specs.declared.plan.group_plan.GroupPlan.{GroupPlan as PlannedGroups};
ghost use Rattle.j39_network.specs.declared.steps.Step.{Step as Steps};
ghost use Rattle.j39_load.specs.Loads.{group_ident};
ghost use Rattle.j39_load.specs.Ranks.{AreTwinFlows, IsShortFlow};
ghost use Rattle.j39_world.specs.Run.{Run, is_on};
ghost use Rattle.j39_world.specs.SentTransfers.{address_of};
ghost use Rattle.j39_world.specs.World.{World, all_off};

/// In every world of every run of a live plan without findings, with all lawful choices, also while claims are
/// undelivered: frames of two flows between units that are on, each message of which goes in one frame, have two
/// identifiers, by the addresses that these units hold, unless both groups are distinguished by their data.
pub fn live_flows_have_different_identifiers()
    ensures { (plan : Plans) (steps : List Steps) (w : World) → Clean plan → plan.live ≡ true → Run plan all_off steps w
        → (f h : ℕ) (flow other : PlannedFlows) (group second : PlannedGroups) → f ≢ h
        → IsShortFlow plan (is_on w.stations) f flow group → IsShortFlow plan (is_on w.stations) h other second
        → group_ident (address_of w.stations) group flow ≡ group_ident (address_of w.stations) second other
        → AreTwinFlows group flow second other }
{}
