//! Laws of all runs of a plan.
ghost use Rattle.std.specs.Prelude.{◌≡◌, List, false};
ghost use Rattle.j39_findings.specs.Findings.{Clean};
ghost use Rattle.j39_network.specs.declared.plan.Plan.{Plan as Plans};
ghost use Rattle.j39_network.specs.declared.steps.Step.{Step as Steps};
ghost use Rattle.j39_world.specs.World.{World, all_off};
ghost use Rattle.j39_findings.specs.ConflictRuns.{IsConflictRun};
ghost use Rattle.j39_findings.specs.declared.checking.finding.Finding.{Finding as Findings};
ghost use Rattle.j39_network.specs.PlannedUnits.{units_of};
ghost use Rattle.j39_world.specs.Conflict.{LeavesWithoutAddress};
ghost use Rattle.j39_world.specs.Opening.{AreNamesDistinct};
ghost use Rattle.j39_world.specs.Run.{Run, RunsThrough};
ghost use Rattle.j39_world.specs.Settling.{Settles};
ghost use Rattle.j39_world.specs.Sound.{AreAddressesSound, AreAddressesDifferent, AreAllDelivered, AreKeptFree};
ghost use Rattle.j39_world.specs.Sound.{AreNotesRight};
ghost use Rattle.j39_world.specs.Sound.{AreReportsSound, IsAcknowledgedReported, IsQuiet};
ghost use Rattle.j39_world.specs.SoundPlan.{IsSending};

mod arrivals;
mod lengths;
mod needs;
mod staying;
mod strangers;
mod switching_off;
mod transfers;

pub use arrivals::{answered_messages_arrive, sent_frames_arrive, unanswered_messages_arrive};
pub use lengths::flows_have_one_length;
pub use needs::{a_needed_value_arrives, a_sent_value_arrives};
pub use staying::{
    alone_units_are_undisturbed, planned_addresses_stay, silent_units_are_undisturbed,
    smaller_names_are_undisturbed, units_hold_planned_or_pool_addresses,
    units_stay_in_each_vehicle, who_stays,
};
pub use strangers::{
    strangers_can_come, strangers_disturb_no_message, strangers_keep_addresses,
    who_stays_with_strangers,
};
pub use switching_off::units_only_stop_between_messages;
pub use transfers::{
    ends_are_undisturbed, every_transfer_ends, sent_frames_are_sound, steps_lead_somewhere,
};

/// In every world of every run of a plan without findings, with all lawful choices, addresses are sound: each unit that
/// is on holds one, a fixed unit its own, and where no claim is undelivered they are pairwise different.
pub fn addresses_are_sound()
    ensures sound { (plan : Plans) (steps : List Steps) (w : World) → Clean plan → Run plan all_off steps w
        → AreAddressesSound plan w }
    ensures different { (plan : Plans) (steps : List Steps) (w : World) → Clean plan → Run plan all_off steps w
        → IsQuiet w.claims → AreAddressesDifferent w }
{}

/// In every world of every run of a plan without findings, with all lawful choices, no arbitrary unit that is on holds
/// an address that the plan keeps free.
pub fn kept_addresses_stay_free()
    ensures { (plan : Plans) (steps : List Steps) (w : World) → Clean plan → Run plan all_off steps w
        → AreKeptFree plan w }
{}

/// In every world of every run, with all lawful choices and whatever is lost, reports are sound: what a unit reported
/// of another is a subsequence of what that one began for it (`sound`). Of a plan that isn't live, while a message is
/// sent no claim and no request is undelivered (`delivered`).
pub fn reports_are_sound()
    ensures sound { (plan : Plans) (steps : List Steps) (w : World) → Run plan all_off steps w → AreReportsSound w }
    ensures delivered { (plan : Plans) (steps : List Steps) (w : World) → plan.live ≡ false → Run plan all_off steps w
        → IsSending w → AreAllDelivered w.claims }
{}

/// In every world of every run, a sender that rests acknowledged sends to one unit, and what this unit reported of it
/// last is the message.
pub fn acknowledged_messages_were_reported()
    ensures { (plan : Plans) (steps : List Steps) (w : World) → Run plan all_off steps w → IsAcknowledgedReported w }
{}

/// From each world of each run of a plan whose NAMEs differ, whoever goes on delivering what units have sent each other
/// comes to an end, in whatever order and with whatever lawful choices: no more Gives than a given number run through,
/// and where none does, nothing is undelivered. It says nothing of time.
pub fn claims_die_down()
    ensures { (plan : Plans) (steps : List Steps) (w : World) → AreNamesDistinct (units_of plan)
        → Run plan all_off steps w → Settles plan w }
{}

/// The steps that show a conflict of two fixed units can be run from the first world, and whoever runs them meets no
/// refusal and comes to a world in which no claim is undelivered and the unit of the larger NAME is on and holds no
/// address.
pub fn conflict_runs_show_the_conflict()
    ensures { (plan : Plans) (finding : Findings) (steps : List Steps) → (c : IsConflictRun plan finding steps)
        → LeavesWithoutAddress plan steps c.larger }
{}

/// What a bus runs without a refusal is a run, so that what holds in every run holds of it.
pub fn runs_through_are_runs()
    ensures { (plan : Plans) (w : World) (steps : List Steps) (after : World) → RunsThrough plan w steps after
        → Run plan w steps after }
{}

/// In every world of every run of a plan whose NAMEs differ, with all lawful choices, where no claim is undelivered,
/// what a unit has noted of another one, both being on, is the address that this one holds.
pub fn quiet_notes_are_right()
    ensures { (plan : Plans) (steps : List Steps) (w : World) → AreNamesDistinct (units_of plan)
        → Run plan all_off steps w
        → IsQuiet w.claims → AreNotesRight plan w }
{}
