//! The forwards of a vehicle file.
ghost use Rattle.std.specs.Prelude.{◌≡◌, ◌≤◌, [], map, length, option_map, Some, string_bytes, IfOk, IfErr, IfSome};
ghost use Rattle.std.specs.Option.{ForSome};
ghost use Rattle.toml.specs.View.{items_view, table_view};
ghost use Rattle.j39_network.specs.PlanLimits.{signal_limit};
ghost use Rattle.j39_toml.specs.declared.file_error.FileError.TheVariants.{Memory};
ghost use Rattle.j39_vehicle.specs.Words.{word_of};
ghost use Rattle.j39_vehicle.specs.Schema.{array_at, number_under, text_at};
ghost use Rattle.j39_toml.specs.Outcome.{Gives, GivesGrowing};
ghost use Rattle.j39_toml.specs.TableFaults.{keys_faults, table_faults};
ghost use Rattle.j39_toml.specs.InOrder.{each_faults, EachGrows};
ghost use Rattle.j39_vehicle.specs.Growing.{ForwardTableGrows, SignalGrows};
ghost use Rattle.j39_vehicle.specs.GatewayTables.{named_gateway};
ghost use Rattle.j39_vehicle.specs.SignalTables.{signal_faults, forwarded_name};
ghost use Rattle.j39_vehicle.specs.ForwardTables as spec;

use super::forward_labels::known_labels;
use super::owned::{name, optional_owned, owned};
use super::signals::SignalReader;
use super::text_kind::TextKind;
use super::values::number;
use super::{Key, Table, VehicleError, VehicleFault};
use crate::file::{ForwardTable, GatewayTable, SignalTable};
use crate::limits::FORWARD_SIGNAL_LIMIT;
use crate::vehicle::Mode;
use j39_toml::{ReadElement, given_array, given_text, only, read_each, required_text, table_of};
use std::alloc::Global;
use toml::Value;

const FORWARD_KEYS: [Key; 10] = [
    Key::Gateway,
    Key::Group,
    Key::From,
    Key::At,
    Key::As,
    Key::By,
    Key::To,
    Key::Mode,
    Key::Within,
    Key::Signal,
];

// What stands at the keys of what is sent.
#[derive(Clone, Copy)]
struct SentKeys<'a> {
    output: &'a str,
    by: Option<&'a str>,
    to: Option<&'a str>,
    mode: Mode,
    within: Option<u16>,
    signals: Option<&'a [Value]>,
    ghost within_positive: { ForSome within (λ n. 1 ≤ n) },
    ghost signal_count: { ForSome signals (λ vs. length vs.now ≤ signal_limit) },
}

// What stands at the keys of a forward.
#[derive(Clone, Copy)]
struct ForwardKeys<'a> {
    gateway: &'a str,
    input: &'a str,
    from: Option<&'a str>,
    at: Option<&'a str>,
    sent: SentKeys<'a>,
}

fn mode(word: Option<&str>) -> Mode
    ensures { result ≡ spec.mode_of (option_map (λ t. t.now) word.entry) }
{
    match word {
        None => Mode::Direct,
        Some(word) => {
            if word == "periodic" {
                Mode::Periodic
            } else {
                Mode::Direct
            }
        }
    }
}

#[tactic(auto, using(j39_toml::proofs::FirstFaults::faults_after))]
fn sent_keys(members: &toml::Table, table: Table) -> Result<SentKeys<'_>, VehicleError>
    ensures { Gives result (keys_faults table (table_view members.now) spec.sent_rules)
        (λ k. let ms = table_view members.now in
        (text_at Key.As ms ≡ Some k.output.now) × (text_at Key.By ms ≡ option_map (λ t. t.now) k.by)
        × (text_at Key.To ms ≡ option_map (λ t. t.now) k.to) × (k.mode ≡ spec.mode_of (text_at Key.Mode ms))
        × (k.within ≡ number_under Key.Within ms)
        × (array_at Key.Signal ms ≡ option_map (λ vs. items_view vs.now) k.signals)) }
{
    let output = required_text(members, table, Key::As, TextKind::OnBus)?;
    let by = given_text(members, table, Key::By, TextKind::Any)?;
    let to = given_text(members, table, Key::To, TextKind::Any)?;
    let word = given_text(members, table, Key::Mode, TextKind::ModeWord)?;
    let within = number(members, table, Key::Within, 1, 65_535, false)?;
    let signals = given_array(members, table, Key::Signal, FORWARD_SIGNAL_LIMIT, false)?;
    Ok(SentKeys {
        output,
        by,
        to,
        mode: mode(word),
        within,
        signals,
    })
}

#[tactic(auto, using(j39_toml::proofs::FirstFaults::faults_after))]
fn keys(members: &toml::Table, table: Table) -> Result<ForwardKeys<'_>, VehicleError>
    ensures { let ms = table_view members.now in
        Gives result (table_faults word_of table spec.forward_rules ms) (λ k.
        (text_at Key.Gateway ms ≡ Some k.gateway.now) × (text_at Key.Group ms ≡ Some k.input.now)
        × (text_at Key.From ms ≡ option_map (λ t. t.now) k.from) × (text_at Key.At ms ≡ option_map (λ t. t.now) k.at)
        × (text_at Key.As ms ≡ Some k.sent.output.now) × (text_at Key.By ms ≡ option_map (λ t. t.now) k.sent.by)
        × (text_at Key.To ms ≡ option_map (λ t. t.now) k.sent.to) × (k.sent.mode ≡ spec.mode_of (text_at Key.Mode ms))
        × (k.sent.within ≡ number_under Key.Within ms)
        × (array_at Key.Signal ms ≡ option_map (λ vs. items_view vs.now) k.sent.signals)) }
{
    only(members, table, &FORWARD_KEYS)?;
    let gateway = required_text(members, table, Key::Gateway, TextKind::Any)?;
    let input = required_text(members, table, Key::Group, TextKind::OnBus)?;
    let from = given_text(members, table, Key::From, TextKind::Any)?;
    let at = given_text(members, table, Key::At, TextKind::Any)?;
    let sent = sent_keys(members, table)?;
    Ok(ForwardKeys {
        gateway,
        input,
        from,
        at,
        sent,
    })
}

// The signals that an array reports, where there is one.
#[tactic(auto, unfolding(j39_toml::specs::InOrder::each_faults))]
fn signals(
    alloc: Global,
    forward: usize,
    values: Option<&[Value]>,
) -> Result<Option<Vec<SignalTable>>, VehicleError>
    requires { IfSome values (λ vs. length vs.now ≤ signal_limit) }
    ensures gives { let items = spec.items_or_none (option_map (λ vs. items_view vs.now) values.entry) in
        GivesGrowing (EachGrows (signal_faults forward) (SignalGrows forward) items) result
        (each_faults (signal_faults forward) forwarded_name 0 [] items)
        (λ signals. spec.DescribesSignals (option_map (λ vs. items_view vs.now) values.entry)
        (option_map (λ v. v.items) signals)) }
    ensures count { IfOk result (λ signals. IfSome signals (λ v. length v.items ≤ signal_limit)) }
{
    match values {
        None => Ok(None),
        Some(values) => Ok(Some(read_each(alloc, &SignalReader { forward }, values)?)),
    }
}

// The forward of these keys, with texts of its own.
fn stated(
    alloc: Global,
    keys: &ForwardKeys<'_>,
    signals: Option<Vec<SignalTable>>,
) -> Result<ForwardTable, VehicleError>
    requires { IfSome signals (λ v. length v.items ≤ signal_limit) }
    ensures stated { IfOk result (λ f. (string_bytes f.gateway ≡ keys.now.gateway.now)
        × (string_bytes f.input.text ≡ keys.now.input.now)
        × (option_map string_bytes f.from ≡ option_map (λ t. t.now) keys.now.from)
        × (option_map string_bytes f.at ≡ option_map (λ t. t.now) keys.now.at)
        × (string_bytes f.output.text ≡ keys.now.sent.output.now)
        × (option_map string_bytes f.by ≡ option_map (λ t. t.now) keys.now.sent.by)
        × (option_map string_bytes f.to ≡ option_map (λ t. t.now) keys.now.sent.to)
        × (f.mode ≡ keys.now.sent.mode) × (f.within ≡ keys.now.sent.within) × (f.signals ≡ signals)) }
    ensures memory { IfErr result (λ e. e ≡ Memory) }
{
    Ok(ForwardTable {
        gateway: owned(alloc, keys.gateway)?,
        input: name(alloc, keys.input)?,
        from: optional_owned(alloc, keys.from)?,
        at: optional_owned(alloc, keys.at)?,
        output: name(alloc, keys.sent.output)?,
        by: optional_owned(alloc, keys.sent.by)?,
        to: optional_owned(alloc, keys.sent.to)?,
        mode: keys.sent.mode,
        within: keys.sent.within,
        signals,
    })
}

#[tactic(auto, using(j39_toml::proofs::FirstFaults::faults_after), unfolding(crate::specs::ForwardTables::forward_table_faults))]
fn forward(
    alloc: Global,
    gateways: &[GatewayTable],
    index: usize,
    members: &toml::Table,
) -> Result<ForwardTable, VehicleError>
    ensures { let seen = map named_gateway gateways.now in
        GivesGrowing (ForwardTableGrows seen index (table_view members.now)) result
        (spec.forward_table_faults seen index (table_view members.now))
        (spec.DescribesForward (table_view members.now)) }
{
    let table = Table::Forward(index);
    let keys = keys(members, table)?;
    let signals = signals(alloc, index, keys.sent.signals)?;
    known_labels(
        gateways,
        table,
        keys.gateway,
        keys.input,
        keys.at,
        keys.sent.output,
        keys.sent.by,
    )?;
    stated(alloc, &keys, signals)
}

/// The reader of forwards.
#[derive(Clone, Copy)]
pub struct ForwardReader<'a> {
    pub gateways: &'a [GatewayTable],
}

impl ReadElement<ForwardTable, VehicleFault> for ForwardReader<'_> {
    ghost use Rattle.j39_vehicle.specs.LabelsSeen.{Named, nameless};
    ghost use Rattle.j39_vehicle.specs.Growing.{ForwardGrows};
    ghost use Rattle.j39_vehicle.specs.VehicleFaults.{no_name};
    ghost use Rattle.j39_vehicle.specs.ForwardTables.{forward_faults, IsForwardOf};

    ghost Label = { Named };

    ghost label = { λ _. nameless };

    ghost data_label = { no_name };

    ghost faults = { λ r i seen. forward_faults (map named_gateway r.gateways.now) i };

    ghost Grows = { λ r. ForwardGrows (map named_gateway r.gateways.now) };

    ghost Describes = { λ _. IsForwardOf };

    #[tactic(auto, using(j39_toml::proofs::FirstFaults::faults_after), unfolding(crate::specs::ForwardTables::forward_faults))]
    fn read(
        &self,
        alloc: Global,
        index: usize,
        _seen: &[ForwardTable],
        value: &Value,
    ) -> Result<ForwardTable, VehicleError> {
        forward(
            alloc,
            self.gateways,
            index,
            table_of::<Table, Key>(value, Table::Forward(index))?,
        )
    }
}
