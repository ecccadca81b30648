//! Laws of steps, and of how messages go on.
ghost use Rattle.std.specs.Prelude.{◌≡◌, ◌≢◌, ℕ, List, false, true};
ghost use Rattle.j39_findings.specs.Findings.{Clean};
ghost use Rattle.j39_network.specs.declared.plan.Plan.{Plan as Plans};
ghost use Rattle.j39_network.specs.declared.steps.Step.{Step as Steps};
ghost use Rattle.j39_world.specs.Ending.{TransfersEnd};
ghost use Rattle.j39_world.specs.Leading.{LeadsOn};
ghost use Rattle.j39_world.specs.LiveEnds.{AreEndsUndisturbed, StandsAlone};
ghost use Rattle.j39_network.specs.PlannedUnits.{units_of};
ghost use Rattle.j39_network.specs.Staying.{IsAloneThere};
ghost use Rattle.j39_network.specs.declared.steps.Step.TheVariants.{Down};
ghost use Rattle.j39_world.specs.Run.{Follows, Run};
ghost use Rattle.j39_world.specs.Sound.{AreAllDelivered, AreSentFramesSound, DoesOneLie};
ghost use Rattle.j39_world.specs.World.{World, all_off};

/// In every world of every run of every plan, each step that isn't refused leads to some world: so what is said of all
/// worlds that follow a step is said of at least one.
pub fn steps_lead_somewhere()
    ensures { (plan : Plans) (steps : List Steps) (w : World) → Run plan all_off steps w → LeadsOn plan w }
{}

/// From each world of each run of every plan, whoever goes on with the messages that were begun comes to an end, in
/// whatever order, whatever is lost and whoever hears nothing in time: no more such steps than a given number run
/// through, and while a unit is between its Begin and its Rest, one of them does. It says nothing of time.
pub fn every_transfer_ends()
    ensures { (plan : Plans) (steps : List Steps) (w : World) → Run plan all_off steps w → TransfersEnd plan w }
{}

/// In every world of every run of every plan, with all lawful choices and whatever is lost, what a unit reported of
/// frames that another sent alone is a subsequence of what that one sent so for it, by its flow and its bytes
/// (`sound`). Of a plan that isn't live, while one of them is undelivered no claim and no request is (`delivered`).
pub fn sent_frames_are_sound()
    ensures sound { (plan : Plans) (steps : List Steps) (w : World) → Run plan all_off steps w → AreSentFramesSound w }
    ensures delivered { (plan : Plans) (steps : List Steps) (w : World) → plan.live ≡ false → Run plan all_off steps w
        → DoesOneLie w → AreAllDelivered w.claims }
{}

/// In every world of every run of a live plan without findings, with all lawful choices: who sends a message is on and
/// holds its planned address, no other unit that is on holds it and none claims it, and so is the unit that the message
/// is for, where it is for one that is on still. Each unit that a message goes to still is on, and so is each of two
/// between whom something lies on the wire. Of a frame that was sent alone and lies there the same is said as of a
/// message (`ends`). Of each plan without findings, a unit that is alone at its planned address and on is so after each
/// step but the one that switches it off (`stay`).
pub fn ends_are_undisturbed()
    ensures ends { (plan : Plans) (steps : List Steps) (w : World) → Clean plan → plan.live ≡ true
        → Run plan all_off steps w
        → AreEndsUndisturbed plan w }
    ensures stay { (plan : Plans) (steps : List Steps) (w : World) → Clean plan → Run plan all_off steps w
        → (u : ℕ) → IsAloneThere plan.keep_free (units_of plan) u → (w.stations u).on ≡ true
        → (step : Steps) (after : World) → step ≢ Down u → Follows plan w step after → StandsAlone plan after u }
{}
