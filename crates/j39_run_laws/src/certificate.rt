//! What a check of a plan is good for.
ghost use Rattle.j39_findings.specs.Findings.{Clean};
ghost use Rattle.j39_network.specs.declared.plan.Plan.{Plan as Plans};
ghost use Rattle.j39_world.specs.SoundPlan.{AreVehiclesSound, IsSound};

use crate::laws::{
    a_needed_value_arrives, a_sent_value_arrives, acknowledged_messages_were_reported,
    addresses_are_sound, alone_units_are_undisturbed, answered_messages_arrive, claims_die_down,
    ends_are_undisturbed, every_transfer_ends, kept_addresses_stay_free, planned_addresses_stay,
    quiet_notes_are_right, reports_are_sound, sent_frames_are_sound, sent_frames_arrive,
    silent_units_are_undisturbed, strangers_keep_addresses, unanswered_messages_arrive,
};
use j39_findings::{
    CheckedPlan, needs_are_met, requests_are_served, serial_numbers_change_nothing,
    signals_are_sound,
};

/// A plan in which nothing is wrong is sound: in every world of every run of it, with all lawful choices and whatever
/// is lost, addresses and reports are sound, addresses also with strangers, planned addresses stay where they differ, a
/// unit that is alone at its own is undisturbed, and so is one that never claims, what units have noted of one another
/// is right where no claim is undelivered, what it keeps free stays free, claims die down, messages come to their end,
/// on a live bus nobody disturbs their ends, those of which nothing is lost arrive, its signals read back what they
/// were last given, some flow of it answers each request, some flow brings each unit what it needs, and a message of
/// such a flow of which nothing is lost reads there as it was written. So is the plan of each vehicle, whatever the
/// serial numbers of its boxes are. `docs/guide/PROMISES.md` has it in plain words. It rests on the laws that it calls.
pub fn clean_plans_are_sound()
    ensures sound { (plan : Plans) → Clean plan → IsSound plan }
    ensures vehicles { (plan : Plans) → Clean plan → AreVehiclesSound plan }
{
    addresses_are_sound();
    planned_addresses_stay();
    alone_units_are_undisturbed();
    silent_units_are_undisturbed();
    strangers_keep_addresses();
    quiet_notes_are_right();
    kept_addresses_stay_free();
    claims_die_down();
    signals_are_sound();
    reports_are_sound();
    sent_frames_are_sound();
    acknowledged_messages_were_reported();
    ends_are_undisturbed();
    every_transfer_ends();
    unanswered_messages_arrive();
    answered_messages_arrive();
    sent_frames_arrive();
    requests_are_served();
    needs_are_met();
    serial_numbers_change_nothing();
    a_needed_value_arrives();
    a_sent_value_arrives();
}

/// A checked plan is sound, and so is the plan of each vehicle, whatever the serial numbers of its boxes are. It does
/// nothing when it runs.
pub fn certify(checked: &CheckedPlan)
    ensures sound { IsSound checked.now }
    ensures vehicles { AreVehiclesSound checked.now }
{
    let _plan = checked.plan();
    clean_plans_are_sound();
}
