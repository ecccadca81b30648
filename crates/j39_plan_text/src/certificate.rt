//! What a check of a plan and of its load is good for.
ghost use Rattle.std.specs.Prelude.{[]};
ghost use Rattle.j39_plan_text.specs.Certified.{IsCertified};
ghost use Rattle.j39_findings.specs.Findings.{Clean};
ghost use Rattle.j39_network.specs.declared.plan.Plan.{Plan as Plans};
ghost use Rattle.j39_load.specs.BusTimes.{timing_of};
ghost use Rattle.j39_load.specs.LoadFindings.{AreLoadFindings};

use j39_findings::serial_numbers_change_nothing;
use j39_load::{
    delays_are_bounds, kept_plans_are_in_time, kept_plans_bring_values_in_time,
    kept_plans_lose_no_receiver, kept_plans_meet_deadlines, needed_values_are_read_in_time,
    needs_stay_fresh, serial_numbers_change_no_load,
};
use j39_run_laws::clean_plans_are_sound;

/// A plan with which and with whose load nothing is wrong is sound, and where something is known of its bus, its
/// planned frames are in time on it, and of each need that asks for an age some flow brings nothing older while it
/// keeps its `pause`, and reads as it was written. All of it holds of the plan of each vehicle too, whatever the serial
/// numbers of its boxes are. It rests on the certificate of the plan and on the laws of delays, of needs and of serial
/// numbers.
pub fn clean_plans_are_certified()
    ensures { (plan : Plans) → Clean plan → AreLoadFindings plan (timing_of plan) [] → IsCertified plan }
{
    clean_plans_are_sound();
    delays_are_bounds();
    needs_stay_fresh();
    needed_values_are_read_in_time();
    kept_plans_are_in_time();
    kept_plans_lose_no_receiver();
    kept_plans_meet_deadlines();
    kept_plans_bring_values_in_time();
    serial_numbers_change_nothing();
    serial_numbers_change_no_load();
}
