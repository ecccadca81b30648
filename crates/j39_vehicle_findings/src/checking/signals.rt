//! Which signals of a group that is sent don't say what goes into them.
ghost use Rattle.std.specs.Prelude.{◌≡◌, false};
ghost use Rattle.std.specs.Option.{option_map_or};
ghost use Rattle.j39_search.specs.Adding.{Adds};
ghost use Rattle.j39_search.specs.ListPlaces.{found_if, in_each};
ghost use Rattle.j39_vehicle_findings.specs.FoundPaths.{are_unlike, differences, differs_from, is_copied_otherwise};
ghost use Rattle.j39_vehicle_findings.specs.FoundPaths.{is_in_selector, is_other_signal, is_other_source};
ghost use Rattle.j39_vehicle_findings.specs.FoundPaths.{is_written_otherwise};
ghost use Rattle.j39_vehicle_findings.specs.FoundPaths.{signals_that_differ};

use crate::buses::{group_at, spn_at};
use crate::finding::VehicleFinding;
use crate::forwards::{copies, listed};
use crate::matching::{are_alike, has};
use crate::traces::first_agreeing;
use j39_network::GroupPlan;
use j39_search::{FindResult, Rule, find_each, push_if};
use j39_signal::{Selector, Signal};
use j39_vehicle::{Forward, ForwardedSignal, Vehicle};

// Whether two signals, at places of their groups, aren't alike.
fn are_unlike(
    heard: &GroupPlan,
    from: usize,
    signal: &Signal,
    sent: &GroupPlan,
    place: usize,
    other: &Signal,
) -> bool
    ensures { result ≡ are_unlike heard.now from signal.now sent.now place other.now }
{
    !are_alike(signal, spn_at(heard, from), other, spn_at(sent, place))
}

// Whether no signal of the group that is heard agrees with this one, or the first that does isn't alike.
fn is_copied_otherwise(heard: &GroupPlan, sent: &GroupPlan, place: usize, signal: &Signal) -> bool
    ensures { result ≡ is_copied_otherwise heard.now sent.now place signal.now }
{
    let Some(from) = first_agreeing(heard, signal) else {
        return true;
    };
    match heard.signals.get(from) {
        Some(other) => are_unlike(heard, from, other, sent, place, signal),
        None => false,
    }
}

// Whether a bit of the signal belongs to the selector.
fn is_in_selector(signal: &Signal, selector: Selector) -> bool
    ensures { result ≡ is_in_selector signal.now selector }
{
    let end = u32::from(selector.start) + u32::from(selector.bits);
    u32::from(signal.start().max(selector.start)) < signal.end().min(end)
}

// Whether a bit of it belongs to the selector of its group.
fn is_selected_by(group: &GroupPlan, signal: &Signal) -> bool
    ensures { result ≡ option_map_or (is_in_selector signal.now) group.now.when false }
{
    match group.when {
        None => false,
        Some(selector) => is_in_selector(signal, selector),
    }
}

// Whether the signal that is heard isn't alike, or can't be said exactly where that is asked.
fn is_other_source(
    heard: &GroupPlan,
    sent: &GroupPlan,
    place: usize,
    signal: &Signal,
    listed: &ForwardedSignal,
) -> bool
    ensures { result ≡ is_other_source heard.now sent.now place signal.now listed.now }
{
    match heard.signals.get(listed.read) {
        Some(other) => {
            are_unlike(heard, listed.read, other, sent, place, signal)
                || listed.exact && !has(other, signal)
        }
        None => false,
    }
}

// Whether what goes into the signal differs from it.
fn differs_from(
    heard: &GroupPlan,
    sent: &GroupPlan,
    place: usize,
    signal: &Signal,
    listed: &ForwardedSignal,
) -> bool
    ensures { result ≡ differs_from heard.now sent.now place signal.now listed.now }
{
    is_other_source(heard, sent, place, signal, listed) || is_selected_by(sent, signal)
}

fn is_written_otherwise(
    forward: &Forward,
    heard: &GroupPlan,
    sent: &GroupPlan,
    place: usize,
    signal: &Signal,
) -> bool
    ensures { result ≡ is_written_otherwise forward.now heard.now sent.now place signal.now }
{
    listed(forward).iter().any(|listed| {
        listed.written == place && differs_from(heard, sent, place, signal, listed)
    })
}

fn is_other_signal(
    forward: &Forward,
    heard: &GroupPlan,
    sent: &GroupPlan,
    place: usize,
    signal: &Signal,
) -> bool
    ensures { result ≡ is_other_signal forward.now heard.now sent.now place signal.now }
{
    copies(forward) && is_copied_otherwise(heard, sent, place, signal)
        || is_written_otherwise(forward, heard, sent, place, signal)
}

#[derive(Clone, Copy)]
struct SignalDiffers<'a> {
    forward: &'a Forward,
    place: usize,
    heard: &'a GroupPlan,
    sent: &'a GroupPlan,
}

impl Rule<Signal, VehicleFinding> for SignalDiffers<'_> {
    ghost use Rattle.j39_vehicle_findings.specs.declared.finding.VehicleFinding.TheVariants.{SignalDiffers as SignalsDiffer};

    ghost gives = { λ rule j t. found_if (is_other_signal rule.forward.now rule.heard.now rule.sent.now j t)
        (SignalsDiffer rule.place j) };

    fn find(
        &self,
        findings: &mut Vec<VehicleFinding>,
        place: usize,
        signal: &Signal,
    ) -> FindResult {
        push_if(
            findings,
            is_other_signal(self.forward, self.heard, self.sent, place, signal),
            VehicleFinding::SignalDiffers(self.place, place),
        )
    }
}

/// Finds the signals that a forward sends and that don't say what goes into them.
#[derive(Clone, Copy)]
pub struct Differences<'a> {
    pub vehicle: &'a Vehicle,
}

impl Rule<Forward, VehicleFinding> for Differences<'_> {
    ghost gives = { λ rule n forward. differences rule.vehicle.now n forward };

    fn find(
        &self,
        findings: &mut Vec<VehicleFinding>,
        place: usize,
        forward: &Forward,
    ) -> FindResult {
        let Some(heard) = group_at(&self.vehicle.buses, forward.input) else {
            return Ok(());
        };
        match group_at(&self.vehicle.buses, forward.output) {
            None => Ok(()),
            Some(sent) => {
                let rule = SignalDiffers {
                    forward,
                    place,
                    heard,
                    sent,
                };
                find_each(findings, &rule, &sent.signals)
            }
        }
    }
}
