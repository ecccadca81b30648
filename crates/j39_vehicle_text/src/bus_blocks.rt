//! What is written of the plans of a vehicle's buses.
ghost use Rattle.std.specs.Prelude.{◌≡◌, ◌+◌, ◌≤◌, ◌++◌, ◌^◌, ◌&&◌, ℕ, List, IfOk, OnOk, length};
ghost use Rattle.j39_answer.specs.PlanAnswers.{IsPlanAnswer, are_of_times, load_findings_in};
ghost use Rattle.j39_load.specs.BusTimes.{timing_of};
ghost use Rattle.j39_network.specs.declared.plan.Plan.{Plan as Plans};
ghost use Rattle.j39_load.specs.declared.findings.load_finding.LoadFinding.{LoadFinding as LoadFaults};
ghost use Rattle.j39_vehicle.specs.VehicleLimits.{bus_limit};
ghost use Rattle.j39_vehicle.specs.declared.vehicle.Vehicle.{Vehicle as AVehicle};
ghost use Rattle.j39_vehicle_times.specs.BusDelays.{AreDelays};
ghost use Rattle.j39_vehicle_text.specs.VehicleBlocks.{AreBlocks, IsBlock, IsLoadOf, IsLoadWhere, all_are_of_times};
ghost use Rattle.j39_vehicle_text.specs.VehicleBlocks.{count_of_plans};

use crate::bus_file::write_bus;
use j39_answer::PlanAnswer;
use j39_plan_text::{write_check, write_load};
use j39_text::{TextBuffer, WriteResult};
use j39_vehicle::BusPlan;
use j39_vehicle_times::Delays;
use std::alloc::{AllocError, Global};

/// What the plans of the buses come to.
#[derive(Clone, Copy)]
pub struct PlansFound {
    /// How many findings all of them have.
    pub count: u128,
    /// Whether each of these is F17, F18 or F20.
    pub are_of_times: bool,
}

// How full the bus of a plan is of which this is known, where it has timing.
fn write_load_of(text: &mut TextBuffer, answer: &PlanAnswer) -> WriteResult
    ensures { OnOk result ((plan : Plans) → IsPlanAnswer plan answer.now
        → (load : List ℕ) × IsLoadOf plan (timing_of plan) load × (text.new ≡ text.old ++ load)) }
{
    let Some(load) = &answer.load else {
        return Ok(());
    };
    write_load(text, &load.loads)?;
    Ok(())
}

// The same, where it is to be reported.
fn write_load_where(text: &mut TextBuffer, answer: &PlanAnswer, is_stated: bool) -> WriteResult
    ensures { OnOk result ((plan : Plans) → IsPlanAnswer plan answer.now
        → (load : List ℕ) × IsLoadWhere is_stated plan load × (text.new ≡ text.old ++ load)) }
{
    if is_stated {
        write_load_of(text, answer)
    } else {
        Ok(())
    }
}

// What is written of a bus, of whose plan this is known.
fn write_block(
    alloc: Global,
    text: &mut TextBuffer,
    bus: &BusPlan,
    answer: &PlanAnswer,
) -> WriteResult
    requires { IsPlanAnswer bus.now.plan answer.now }
    ensures { OnOk result ((block : List ℕ) × IsBlock bus.now (load_findings_in answer.now) block
        × (text.new ≡ text.old ++ block)) }
{
    write_bus(text, &bus.label)?;
    let _verdict = write_check(alloc, text, &bus.plan, answer)?;
    write_load_where(text, answer, answer.are_of_times())?;
    Ok(())
}

impl PlansFound {
    // With the findings of one more plan.
    fn with(self, answer: &PlanAnswer) -> PlansFound
        requires { self.count ≤ 2 ^ 100 }
        ensures count { result.count ≡ self.count + (length answer.now.findings.items + length
            (load_findings_in answer.now)) }
        ensures few { result.count ≤ self.count + 2 ^ 64 }
        ensures are_of_times { result.are_of_times
            ≡ (self.are_of_times && are_of_times answer.now.findings.items (load_findings_in answer.now)) }
    {
        PlansFound {
            count: self.count + answer.count() as u128,
            are_of_times: self.are_of_times && answer.are_of_times(),
        }
    }
}

/// Writes of each bus what is wrong with its plan, and how full it is. Each plan is answered once: what it comes to is
/// answered with the delays of the flows of all buses.
pub(super) fn write_blocks(
    alloc: Global,
    text: &mut TextBuffer,
    buses: &[BusPlan],
) -> Result<(PlansFound, Delays), AllocError>
    requires { length buses.now ≤ bus_limit }
    ensures stated { IfOk result (λ all. (others : List (List LoadFaults)) × (blocks : List ℕ)
        × AreBlocks buses.now others blocks
        × (text.new ≡ text.old ++ blocks) × (all.0.count ≡ count_of_plans buses.now others)
        × (all.0.are_of_times ≡ all_are_of_times buses.now others)) }
    ensures few { IfOk result (λ all. all.0.count ≤ 2 ^ 70) }
    ensures delays { IfOk result (λ all. (v : AVehicle) → v.buses.items ≡ buses.now → AreDelays v all.1) }
{
    let mut all = PlansFound {
        count: 0,
        are_of_times: true,
    };
    let mut of_buses = Vec::new(alloc);
    for bus in buses {
        let answer = PlanAnswer::new(alloc, &bus.plan)?;
        write_block(alloc, text, bus, &answer)?;
        all = all.with(&answer);
        of_buses.push(answer.into_delays(alloc))?;
    }
    Ok((all, Delays { of_buses }))
}
