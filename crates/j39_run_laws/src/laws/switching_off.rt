//! A law of units that are switched off.
ghost use Rattle.std.specs.Prelude.{◌≡◌, ℕ, List, None, false};
ghost use Rattle.j39_network.specs.declared.plan.Plan.{Plan as Plans};
ghost use Rattle.j39_network.specs.declared.steps.Step.{Step as Steps};
ghost use Rattle.j39_network.specs.declared.steps.Step.TheVariants.{Down};
ghost use Rattle.j39_world.specs.Run.{Run, refusal};
ghost use Rattle.j39_world.specs.SwitchingOff.{stopped, switched_off};
ghost use Rattle.j39_world.specs.World.{World, all_off};

/// In every world of every run of a plan that isn't live, a unit that may be switched off only stops: no message is
/// open, so what is left of messages where a unit goes off is what there was.
pub fn units_only_stop_between_messages()
    ensures { (plan : Plans) (steps : List Steps) (w : World) → plan.live ≡ false → Run plan all_off steps w
        → (u : ℕ) → refusal plan w (Down u) ≡ None → switched_off w u ≡ stopped w u }
{}
