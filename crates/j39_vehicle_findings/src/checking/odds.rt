//! Which two forwards may say different things of one flow.
ghost use Rattle.std.specs.Prelude.{◌≡◌};
ghost use Rattle.std.specs.List.{list_any};
ghost use Rattle.j39_vehicle_findings.specs.ForwardEnds.{output_flows};
ghost use Rattle.j39_vehicle_findings.specs.FoundPaths.{are_at_odds, are_two_forwards, feed_one_flow, is_of_both};

use crate::finding::VehicleFinding;
use crate::forwards::{copies, is_direct, is_output, output_flows, write_one_signal};
use j39_network::FlowPlan;
use j39_search::PairRule;
use j39_vehicle::{Forward, Vehicle};

// Whether the flow is an output of both.
fn is_of_both(first: &Forward, second: &Forward, flow: &FlowPlan) -> bool
    ensures { result ≡ is_of_both first.now second.now flow.now }
{
    is_output(first, flow) && is_output(second, flow)
}

fn some_is_of_both(vehicle: &Vehicle, first: &Forward, second: &Forward) -> bool
    ensures { result ≡ list_any (is_of_both first.now second.now) (output_flows vehicle.now first.now) }
{
    output_flows(vehicle, first)
        .iter()
        .any(|flow| is_of_both(first, second, flow))
}

fn feed_one_flow(vehicle: &Vehicle, first: &Forward, second: &Forward) -> bool
    ensures { result ≡ feed_one_flow vehicle.now first.now second.now }
{
    first.output.bus == second.output.bus
        && first.output.group == second.output.group
        && first.sender == second.sender
        && some_is_of_both(vehicle, first, second)
}

// Whether both may say when a message is sent, or what a signal is.
fn are_at_odds(first: &Forward, second: &Forward) -> bool
    ensures { result ≡ are_at_odds first.now second.now }
{
    is_direct(first)
        || is_direct(second)
        || copies(first)
        || copies(second)
        || write_one_signal(first, second)
}

/// Finds the forwards that feed one flow and may say different things of it.
#[derive(Clone, Copy)]
pub struct TwoForwards<'a> {
    pub vehicle: &'a Vehicle,
}

impl PairRule<Forward, VehicleFinding> for TwoForwards<'_> {
    ghost use Rattle.j39_vehicle_findings.specs.declared.finding.VehicleFinding.TheVariants.{TwoForwards as Pairs};

    ghost test = { λ rule. are_two_forwards rule.vehicle.now };

    ghost make = { λ _ n m. Pairs n m };

    fn holds(&self, first: &Forward, second: &Forward) -> bool {
        feed_one_flow(self.vehicle, first, second) && are_at_odds(first, second)
    }

    fn finding(&self, first: usize, second: usize) -> VehicleFinding {
        VehicleFinding::TwoForwards(first, second)
    }
}
