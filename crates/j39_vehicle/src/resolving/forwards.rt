//! What forwards name.
ghost use Rattle.std.specs.Prelude.{◌≡◌, ◌≤◌, length, option_and_then, option_map, Some, string_bytes, IfOk, IfSome};
ghost use Rattle.j39_network.specs.PlanLimits.{signal_limit};
ghost use Rattle.j39_toml.specs.Outcome.{Gives, GivesGrowing};
ghost use Rattle.j39_vehicle.specs.LabelsFound as found;
ghost use Rattle.j39_vehicle.specs.Resolved as spec;

use super::each::{Resolve, resolve_each};
use super::found::{group_named, receivers_on, unit_place};
use super::own::{gateway_labelled, given, needed, own_unit, units_by};
use super::signals::SignalResolver;
use crate::file::{ForwardTable, GatewayTable, NameOnBus, SignalTable};
use crate::reading::{Key, Table, VehicleError};
use crate::vehicle::{BusPlan, Forward, ForwardedSignal, GroupAt};
use j39_network::To;
use std::alloc::Global;

// The group that is heard, the unit that has to send it, and the gateway's that hears it.
#[derive(Clone, Copy)]
struct HeardGroup {
    group: GroupAt,
    from: Option<usize>,
    hearer: usize,
}

// The group that is sent, the gateway's unit that sends it, and whom it sends it to.
#[derive(Clone, Copy)]
struct SentGroup {
    group: GroupAt,
    sender: usize,
    to: Option<To>,
}

#[tactic(auto, using(j39_toml::proofs::FirstFaults::faults_after), unfolding(crate::specs::Resolved::heard_found, crate::specs::LabelsSeen::label_faults))]
fn hearing(
    buses: &[BusPlan],
    units: &[NameOnBus],
    index: usize,
    table: &ForwardTable,
) -> Result<HeardGroup, VehicleError>
    ensures { Gives result (spec.heard_found buses.now units.now index table.now) (λ h.
        (found.group_named buses.now (string_bytes table.now.input.text) ≡ Some h.group)
        × (h.from ≡ option_and_then (found.unit_place buses.now h.group.bus) (option_map string_bytes table.now.from))
        × (found.own_unit buses.now units.now table.now.input h.group.bus table.now.at ≡ Some h.hearer)) }
{
    let place = Table::Forward(index);
    let group = needed(
        group_named(buses, table.input.text.as_str()),
        place,
        Key::Group,
    )?;
    let from = table
        .from
        .as_ref()
        .and_then(|label| unit_place(buses, group.bus, label.as_str()));
    let from = given(&table.from, from, place, Key::From)?;
    let hearer = own_unit(buses, units, &table.input, group.bus, &table.at);
    let hearer = needed(hearer, place, Key::At)?;
    Ok(HeardGroup {
        group,
        from,
        hearer,
    })
}

#[tactic(auto, using(j39_toml::proofs::FirstFaults::faults_after), unfolding(crate::specs::Resolved::sent_found, crate::specs::LabelsSeen::label_faults))]
fn sending(
    buses: &[BusPlan],
    units: &[NameOnBus],
    index: usize,
    table: &ForwardTable,
) -> Result<SentGroup, VehicleError>
    ensures { Gives result (spec.sent_found buses.now units.now index table.now) (λ s.
        (found.group_named buses.now (string_bytes table.now.output.text) ≡ Some s.group)
        × (found.own_unit buses.now units.now table.now.output s.group.bus table.now.by ≡ Some s.sender)
        × (s.to ≡ option_and_then (found.receivers_on buses.now s.group.bus) (option_map string_bytes table.now.to))) }
{
    let place = Table::Forward(index);
    let group = needed(
        group_named(buses, table.output.text.as_str()),
        place,
        Key::As,
    )?;
    let sender = own_unit(buses, units, &table.output, group.bus, &table.by);
    let sender = needed(sender, place, Key::By)?;
    let to = table
        .to
        .as_ref()
        .and_then(|word| receivers_on(buses, group.bus, word.as_str()));
    let to = given(&table.to, to, place, Key::To)?;
    Ok(SentGroup { group, sender, to })
}

// The signals that are listed, between the groups that are heard and sent, or none where there is no list.
#[tactic(auto, unfolding(crate::specs::Resolved::signals_found))]
fn signals(
    alloc: Global,
    resolver: &SignalResolver<'_>,
    listed: &Option<Vec<SignalTable>>,
) -> Result<Option<Vec<ForwardedSignal>>, VehicleError>
    requires { IfSome listed.now (λ v. length v.items ≤ signal_limit) }
    ensures gives { let tables = option_map (λ v. v.items) listed.now in
        GivesGrowing
        (spec.ListGrows resolver.now.buses.now resolver.now.forward resolver.now.heard resolver.now.sent tables) result
        (spec.signals_found resolver.now.buses.now resolver.now.forward (Some resolver.now.heard)
        (Some resolver.now.sent) tables)
        (λ found. spec.StandForSignals resolver.now.buses.now resolver.now.heard resolver.now.sent tables
        (option_map (λ v. v.items) found)) }
    ensures count { IfOk result (λ found. IfSome found (λ v. length v.items ≤ signal_limit)) }
{
    match listed {
        None => Ok(None),
        Some(tables) => Ok(Some(resolve_each(alloc, resolver, tables.as_slice())?)),
    }
}

/// What the tables of forwards stand for, by the gateways of the file.
#[derive(Clone, Copy)]
pub struct ForwardResolver<'a> {
    pub buses: &'a [BusPlan],
    pub gateways: &'a [GatewayTable],
}

impl Resolve<ForwardTable, Forward> for ForwardResolver<'_> {
    ghost faults = { λ r. spec.forward_found r.buses.now r.gateways.now };

    ghost Grows = { λ r. spec.ForwardFoundGrows r.buses.now };

    ghost StandsFor = { λ r. spec.StandsForForward r.buses.now r.gateways.now };

    #[tactic(auto, using(j39_toml::proofs::FirstFaults::faults_after), unfolding(crate::specs::Resolved::forward_found, crate::specs::LabelsSeen::label_faults))]
    fn resolve(
        &self,
        alloc: Global,
        index: usize,
        table: &ForwardTable,
    ) -> Result<Forward, VehicleError> {
        let place = Table::Forward(index);
        let gateway = gateway_labelled(self.gateways, table.gateway.as_str());
        let gateway = needed(gateway, place, Key::Gateway)?;
        let units = units_by(self.gateways, table.gateway.as_str());
        let heard = hearing(self.buses, units, index, table)?;
        let sent = sending(self.buses, units, index, table)?;
        let resolver = SignalResolver {
            buses: self.buses,
            forward: index,
            heard: heard.group,
            sent: sent.group,
        };
        let signals = signals(alloc, &resolver, &table.signals)?;
        Ok(Forward {
            gateway,
            input: heard.group,
            from: heard.from,
            hearer: heard.hearer,
            output: sent.group,
            sender: sent.sender,
            to: sent.to,
            mode: table.mode,
            within: table.within,
            signals,
        })
    }
}
