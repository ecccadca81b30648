//! The signals of a group.
ghost use Rattle.std.specs.Prelude.{◌≡◌, ◌≤◌, ◌≤ℤ◌, true, false, None, pos, negsuc, IsTrue, IfOk, IfSome};
ghost use Rattle.toml.specs.View.{table_view};
ghost use Rattle.j39_signal.specs.Parts.{IsSignal, IsDivisor};
ghost use Rattle.j39_id.specs.LabelForm.{is_label};
ghost use Rattle.j39_toml.specs.Rules.{flag_of, integer_of, number_of, text_of};
ghost use Rattle.j39_toml.specs.TableFaults.{key_faults};
ghost use Rattle.j39_plan.specs.ValueCauses.{names_cause};
ghost use Rattle.j39_plan.specs.Since.{since, since_faults};
ghost use Rattle.j39_plan.specs.declared.reading.version.Version.TheVariants.{Third};
ghost use Rattle.j39_plan.specs.MeaningTables.{DescribesKeys, raw_limit};
ghost use Rattle.j39_network.specs.PlanLimits.{spn_most};
ghost use Rattle.j39_toml.specs.Outcome.{Gives};
ghost use Rattle.j39_id.specs.Limits.{message_bytes};
ghost use Rattle.j39_plan.specs.SignalTables.{is_code, is_dtc, kind_of, kind_rule, kinds, offset_rule, per_of};
ghost use Rattle.j39_plan.specs.SignalTables.{per_rule, repeated_of, repeated_rule, signal_table_faults, start_of};
ghost use Rattle.j39_plan.specs.SignalTables.{step_rule, unit_rule, DescribesSignal};

use super::keys::SIGNAL_KEYS;
use super::labels::{Labelled, untaken};
use super::meanings::{MeaningKeys, meaning_keys, meaning_of};
use super::tables::only_known;
use super::text_kind::TextKind;
use super::values::{divisor, flag_if, integer, number, short_text, text};
use super::{Key, PlanError, PlanFault, Table, Version};
use j39_id::Label;
use j39_id::limits::MESSAGE_BYTES;
use j39_network::Meaning;
use j39_signal::{Kind, Signal};
use j39_toml::{ReadElement, table_of};
use std::alloc::Global;
use toml::Value;

fn kind_of(word: &str) -> Kind
    ensures { result ≡ kind_of word.now }
{
    match word {
        "measured" => Kind::Measured,
        "discrete" => Kind::Discrete,
        "states" => Kind::States,
        "signed" => Kind::Signed,
        "dtc" => Kind::Dtc,
        _ => Kind::Raw,
    }
}

fn is_dtc(kind: Kind) -> bool
    ensures { result ≡ is_dtc kind }
{
    match kind {
        Kind::Dtc => true,
        _ => false,
    }
}

/// The first bit, counted from 0, of a byte and a bit in it, which are counted from 1.
pub(super) fn start_of(byte: u32, bit: u32) -> u16
    requires byte { (1 ≤ byte) × (byte ≤ message_bytes) }
    requires bit { (1 ≤ bit) × (bit ≤ 8) }
    ensures { result ≡ start_of byte bit }
{
    let start = 8 * (byte - 1) + (bit - 1);
    start as u16
}

// The words of kinds that the version knows.
fn kinds(version: Version) -> TextKind
    ensures { result ≡ kinds version }
{
    if version.knows(Version::Third) {
        TextKind::AnySignalKind
    } else {
        TextKind::SignalKind
    }
}

// The kind, and whether it is a trouble code.
#[tactic(auto, unfolding(crate::specs::SignalTables::is_code))]
fn kind(version: Version, members: &toml::Table, table: Table) -> Result<(Kind, bool), PlanError>
    ensures { Gives result (key_faults table (table_view members.now) (kind_rule version))
        (λ k. (k.0 ≡ kind_of (text_of (kind_rule version) (table_view members.now)))
        × (k.1 ≡ is_code version (table_view members.now))) }
{
    let word = text(members, table, Key::Kind, kinds(version), None)?;
    let kind = kind_of(word);
    Ok((kind, version.knows(Version::Third) && is_dtc(kind)))
}

#[tactic(auto, unfolding(j39_toml::specs::Rules::number_of))]
fn step(members: &toml::Table, table: Table, code: bool) -> Result<u32, PlanError>
    ensures gives { Gives result (key_faults table (table_view members.now) (step_rule code))
        (λ n. n ≡ number_of (step_rule false) (table_view members.now)) }
    ensures some { IfOk result (λ n. 1 ≤ n) }
    ensures most { IfOk result (λ n. n ≤ 1000000) }
{
    if code {
        number(members, table, Key::Step, 1, 1, Some(1))
    } else {
        number(members, table, Key::Step, 1, 1_000_000, Some(1))
    }
}

#[tactic(auto, unfolding(j39_toml::specs::Rules::number_of))]
fn per(members: &toml::Table, table: Table, code: bool) -> Result<u32, PlanError>
    ensures gives { Gives result (key_faults table (table_view members.now) (per_rule code))
        (λ n. n ≡ number_of (per_rule false) (table_view members.now)) }
    ensures divides { IfOk result IsDivisor }
{
    if code {
        divisor(members, table, Key::Per, 1)
    } else {
        divisor(members, table, Key::Per, 10_000_000)
    }
}

#[tactic(auto, unfolding(j39_toml::specs::Rules::integer_of))]
fn offset(members: &toml::Table, table: Table, code: bool) -> Result<i64, PlanError>
    ensures gives { Gives result (key_faults table (table_view members.now) (offset_rule code))
        (λ n. n ≡ integer_of (offset_rule false) (table_view members.now)) }
    ensures least { IfOk result (λ n. negsuc 999999999999 ≤ℤ n) }
    ensures greatest { IfOk result (λ n. n ≤ℤ pos 1000000000000) }
{
    if code {
        integer(members, table, Key::Offset, 0, 0, Some(0))
    } else {
        let (least, most) = (-1_000_000_000_000, 1_000_000_000_000);
        integer(members, table, Key::Offset, least, most, Some(0))
    }
}

#[tactic(auto, unfolding(j39_toml::specs::Rules::text_of))]
fn unit(members: &toml::Table, table: Table, code: bool) -> Result<Label, PlanError>
    ensures { Gives result (key_faults table (table_view members.now) (unit_rule code))
        (λ t. t.bytes ≡ text_of (unit_rule false) (table_view members.now)) }
{
    if code {
        short_text(members, table, Key::Unit, TextKind::Empty, Some(""))
    } else {
        short_text(members, table, Key::Unit, TextKind::SignalUnit, Some(""))
    }
}

// Whether the signal is repeated, which it can't be in a group without records.
#[tactic(auto, unfolding(j39_toml::specs::Rules::flag_of))]
fn repeated(members: &toml::Table, table: Table, records: bool) -> Result<bool, PlanError>
    ensures gives { Gives result (key_faults table (table_view members.now) (repeated_rule records))
        (λ b. b ≡ flag_of (repeated_rule true) (table_view members.now)) }
    ensures only { IfOk result (λ b. records ≡ false → b ≡ false) }
{
    flag_if(members, table, Key::Repeated, records)
}

// A signal whose values are whole numbers, and which is neither repeated nor optional.
fn whole_signal(
    label: Label,
    start: u16,
    bits: u32,
    kind: Kind,
    step: u32,
    offset: i64,
    unit: Label,
) -> Signal
    requires bits { (1 ≤ bits) × (bits ≤ 64) }
    requires step { (1 ≤ step) × (step ≤ 1000000) }
    requires least { negsuc 999999999999 ≤ℤ offset }
    requires greatest { offset ≤ℤ pos 1000000000000 }
    ensures label { result.label ≡ label }
    ensures start { result.start ≡ start }
    ensures bits { result.bits ≡ bits }
    ensures kind { result.kind ≡ kind }
    ensures step { result.step ≡ step }
    ensures offset { result.offset ≡ offset }
    ensures per { result.per ≡ 1 }
    ensures unit { result.unit ≡ unit }
    ensures once { result.repeated ≡ false }
    ensures always { result.optional ≡ false }
    ensures ranges { IsSignal result.start result.bits result.step result.offset }
{
    match Signal::new(
        label,
        start,
        bits as u8,
        kind,
        i64::from(step),
        offset,
        unit,
    ) {
        Some(signal) => signal,
        None => unreachable!(),
    }
}

/// What the table of a signal reports, the names of its raw numbers as the file has them.
#[derive(Clone, Copy)]
struct SignalKeys<'a> {
    signal: Signal,
    meant: MeaningKeys<'a>,
}

// What the values are divided by: 1 in a version that doesn't know it.
fn known_per(
    version: Version,
    members: &toml::Table,
    table: Table,
    code: bool,
) -> Result<u32, PlanError>
    ensures gives { Gives result (since_faults table version (table_view members.now) (since Third (per_rule code)))
        (λ n. n ≡ per_of version (table_view members.now)) }
    ensures divides { IfOk result IsDivisor }
{
    if version.knows(Version::Third) {
        per(members, table, code)
    } else {
        Ok(1)
    }
}

// Whether it is repeated: it isn't in a version that doesn't know it.
fn known_repeated(
    version: Version,
    members: &toml::Table,
    table: Table,
    records: bool,
) -> Result<bool, PlanError>
    ensures gives { Gives result (since_faults table version (table_view members.now)
        (since Third (repeated_rule records)))
        (λ b. b ≡ repeated_of version (table_view members.now)) }
    ensures only { IfOk result (λ b. records ≡ false → b ≡ false) }
{
    if version.knows(Version::Third) {
        repeated(members, table, records)
    } else {
        Ok(false)
    }
}

#[tactic(auto, using(j39_toml::proofs::FirstFaults::faults_after), unfolding(crate::specs::SignalTables::signal_table_faults))]
fn signal<'a>(
    reader: &SignalReader,
    table: Table,
    members: &'a toml::Table,
) -> Result<SignalKeys<'a>, PlanError>
    ensures gives { Gives result (signal_table_faults reader.now.version reader.now.records table
        (table_view members.now))
        (λ k. DescribesSignal reader.now.version (table_view members.now) k.signal
        × DescribesKeys reader.now.version (table_view members.now) k.meant) }
    ensures label_form { IfOk result (λ k. IsTrue (is_label k.signal.label.bytes)) }
    ensures ranges { IfOk result (λ k. IsSignal k.signal.start k.signal.bits k.signal.step k.signal.offset) }
    ensures divides { IfOk result (λ k. IsDivisor k.signal.per) }
    ensures single { IfOk result (λ k. reader.now.records ≡ false → k.signal.repeated ≡ false) }
    ensures spn { IfOk result (λ k. IfSome k.meant.spn (λ n. n ≤ spn_most)) }
    ensures named { IfOk result (λ k. IfSome k.meant.names
        (λ t. names_cause (raw_limit k.signal.bits) (table_view t.now) ≡ None)) }
{
    let version = reader.version;
    only_known(members, table, version, &SIGNAL_KEYS)?;
    let label = short_text(members, table, Key::Label, TextKind::Label, None)?;
    let byte = number(members, table, Key::Byte, 1, MESSAGE_BYTES as u32, None)?;
    let bit = number(members, table, Key::Bit, 1, 8, Some(1))?;
    let bits = number(members, table, Key::Bits, 1, 64, None)?;
    let kind = kind(version, members, table)?;
    let step = step(members, table, kind.1)?;
    let per = known_per(version, members, table, kind.1)?;
    let offset = offset(members, table, kind.1)?;
    let unit = unit(members, table, kind.1)?;
    let repeated = known_repeated(version, members, table, reader.records)?;
    let meant = meaning_keys(members, table, version, repeated, kind.1, bits)?;
    let start = start_of(byte, bit);
    match whole_signal(label, start, bits, kind.0, step, offset, unit).divided_by(per) {
        Some(signal) => Ok(SignalKeys {
            signal: signal.with_repeated(repeated).with_optional(meant.optional),
            meant,
        }),
        None => unreachable!(),
    }
}

/// A signal of a group, with what is said of it besides.
#[derive(Drop)]
pub struct PlannedSignal {
    pub signal: Signal,
    pub meaning: Meaning,
}

/// The reader of the signals of the group at a place, which has records or hasn't.
#[derive(Clone, Copy)]
pub struct SignalReader {
    pub version: Version,
    pub records: bool,
    pub group: usize,
}

impl ReadElement<PlannedSignal, PlanFault> for SignalReader {
    ghost use Rattle.std.specs.Prelude.{ℕ, List};
    ghost use Rattle.j39_plan.specs.Growing.{SignalGrows};
    ghost use Rattle.j39_plan.specs.SignalTables.{signal_faults, IsSignalOf, IsMeaningOf, IsFit};
    ghost use Rattle.j39_plan.specs.LabelsSeen.{label_in};

    ghost Label = { List ℕ };

    ghost label = { λ x. x.signal.label.bytes };

    ghost data_label = { label_in };

    ghost faults = { λ r. signal_faults r.version r.records r.group };

    ghost Grows = { λ r. SignalGrows r.version r.records r.group };

    ghost Describes = { λ r d x. (IsSignalOf r.version d x.signal × IsFit r.records x.signal)
        × IsMeaningOf r.version d x.meaning };

    #[tactic(auto, using(j39_toml::proofs::FirstFaults::faults_after), unfolding(crate::specs::SignalTables::signal_faults))]
    fn read(
        &self,
        alloc: Global,
        index: usize,
        seen: &[PlannedSignal],
        value: &Value,
    ) -> Result<PlannedSignal, PlanError> {
        let table = Table::Signal(self.group, index);
        let members = table_of::<Table, Key>(value, table)?;
        let keys = match signal(self, table, members) {
            Ok(keys) => keys,
            Err(error) => return Err(error),
        };
        untaken(seen, keys.signal.label_text(), TextKind::Label, table)?;
        let meaning = meaning_of(alloc, keys.meant, u32::from(keys.signal.bits()))?;
        Ok(PlannedSignal {
            signal: keys.signal,
            meaning,
        })
    }
}
