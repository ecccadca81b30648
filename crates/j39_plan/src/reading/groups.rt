//! The groups of a plan.
ghost use Rattle.std.specs.Prelude.{◌≡◌, ◌≢◌, ◌≤◌, ◌<◌, [], map, option_map, IfOk, OnErr, IfSome};
ghost use Rattle.toml.specs.View.{items_view, table_view};
ghost use Rattle.j39_id.specs.Limits.{message_bytes};
ghost use Rattle.j39_plan.specs.Schema.{tables_of};
ghost use Rattle.j39_plan.specs.Since.{since, since_faults, known_faults};
ghost use Rattle.j39_plan.specs.declared.reading.version.Version.TheVariants.{Third, Fourth};
ghost use Rattle.j39_toml.specs.Outcome.{Gives, GivesGrowing};
ghost use Rattle.j39_plan.specs.Growing.{GroupGrows};
ghost use Rattle.j39_plan.specs.SelectorTables.{when_rule, when_table};
ghost use Rattle.j39_plan.specs.GroupTables.{every_of, every_rule, group_table_faults, inner_rules, later_rules};
ghost use Rattle.j39_plan.specs.GroupTables.{most_of, most_rule, private_of, private_rule, signal_rule, text_rule};
ghost use Rattle.j39_plan.specs.GroupTables.{text_tables_of, DescribesGroup};

use super::keys::GROUP_KEYS;
use super::labels::untaken;
use super::selectors::when;
use super::signals::{PlannedSignal, SignalReader};
use super::tables::{array, only_known, optional_inner};
use super::text_kind::TextKind;
use super::texts::TextReader;
use super::values::{flag, number, short_text};
use super::{Key, PlanError, PlanFault, Table, Version};
use j39_id::limits::MESSAGE_BYTES;
use j39_network::limits::{SIGNAL_LIMIT, TEXT_LIMIT};
use j39_network::{GroupPlan, Meaning};
use j39_signal::Signal;
use j39_toml::{ReadElement, given_number, read_each, table_of};
use std::alloc::{AllocError, Global};
use toml::Value;

// What stands behind the length: whether the number is a maker's own, the length of the longest messages, how far apart
// records stand, and the table of the selector.
#[derive(Clone, Copy)]
struct LaterKeys<'a> {
    private: bool,
    most: u32,
    every: Option<u32>,
    when: Option<&'a toml::Table>,
}

// Whether the number is a maker's own: it isn't in a version that doesn't know it.
fn private(version: Version, members: &toml::Table, table: Table) -> Result<bool, PlanError>
    ensures { Gives result (since_faults table version (table_view members.now) (since Third private_rule))
        (λ b. b ≡ private_of version (table_view members.now)) }
{
    if version.knows(Version::Third) {
        flag(members, table, Key::Private, false)
    } else {
        Ok(false)
    }
}

// The length of the longest messages: that of all in a version that doesn't know several.
fn most(
    version: Version,
    length: u32,
    members: &toml::Table,
    table: Table,
) -> Result<u32, PlanError>
    requires { length ≤ message_bytes }
    ensures gives { Gives result (since_faults table version (table_view members.now) (since Third (most_rule length)))
        (λ n. n ≡ most_of version length (table_view members.now)) }
    ensures at_least { IfOk result (λ n. length ≤ n) }
    ensures at_most { IfOk result (λ n. n ≤ message_bytes) }
{
    if version.knows(Version::Third) {
        let limit = MESSAGE_BYTES as u32;
        number(members, table, Key::Most, length, limit, Some(length))
    } else {
        Ok(length)
    }
}

// How far apart records stand: there are none in a version that doesn't know them.
fn every(version: Version, members: &toml::Table, table: Table) -> Result<Option<u32>, PlanError>
    ensures gives { Gives result (since_faults table version (table_view members.now) (since Third every_rule))
        (λ n. n ≡ every_of version (table_view members.now)) }
    ensures some { IfOk result (λ found. IfSome found (λ n. 1 ≤ n)) }
    ensures few { IfOk result (λ found. IfSome found (λ n. n ≤ 255)) }
{
    if version.knows(Version::Third) {
        given_number(members, table, Key::Every, 1, 255, false)
    } else {
        Ok(None)
    }
}

// The table of the selector: none in a version that doesn't know it.
fn when_key(
    version: Version,
    members: &toml::Table,
    table: Table,
) -> Result<Option<&toml::Table>, PlanError>
    ensures { Gives result (since_faults table version (table_view members.now) (since Fourth when_rule))
        (λ found. option_map (λ t. table_view t.now) found ≡ when_table version (table_view members.now)) }
{
    if version.knows(Version::Fourth) {
        optional_inner(members, table, Key::When)
    } else {
        Ok(None)
    }
}

#[tactic(auto, using(j39_toml::proofs::FirstFaults::faults_after))]
fn later_keys(
    version: Version,
    length: u32,
    members: &toml::Table,
    table: Table,
) -> Result<LaterKeys, PlanError>
    requires { length ≤ message_bytes }
    ensures gives { Gives result (known_faults table version (table_view members.now) (later_rules length))
        (λ later. (later.private ≡ private_of version (table_view members.now))
        × (later.most ≡ most_of version length (table_view members.now))
        × (later.every ≡ every_of version (table_view members.now))
        × (option_map (λ t. table_view t.now) later.when ≡ when_table version (table_view members.now))) }
    ensures at_least { IfOk result (λ later. length ≤ later.most) }
    ensures at_most { IfOk result (λ later. later.most ≤ message_bytes) }
    ensures some { IfOk result (λ later. IfSome later.every (λ n. 1 ≤ n)) }
    ensures few { IfOk result (λ later. IfSome later.every (λ n. n ≤ 255)) }
{
    let private = private(version, members, table)?;
    let most = most(version, length, members, table)?;
    let every = every(version, members, table)?;
    let when = when_key(version, members, table)?;
    Ok(LaterKeys {
        private,
        most,
        every,
        when,
    })
}

// The tables of texts: none in a version that doesn't know them.
fn text_tables(version: Version, members: &toml::Table, table: Table) -> Result<&[Value], PlanError>
    ensures { Gives result (since_faults table version (table_view members.now) (since Third text_rule))
        (λ texts. items_view texts.now ≡ text_tables_of version (table_view members.now)) }
{
    if version.knows(Version::Third) {
        array(members, table, Key::Text, TEXT_LIMIT)
    } else {
        Ok(&[])
    }
}

// The tables of signals and of texts.
#[derive(Clone, Copy)]
struct Inside<'a> {
    signals: &'a [Value],
    texts: &'a [Value],
}

#[tactic(auto, using(j39_toml::proofs::FirstFaults::faults_after))]
fn arrays(version: Version, members: &toml::Table, table: Table) -> Result<Inside, PlanError>
    ensures { Gives result (known_faults table version (table_view members.now) inner_rules)
        (λ arrays. (items_view arrays.signals.now ≡ tables_of signal_rule (table_view members.now))
        × (items_view arrays.texts.now ≡ text_tables_of version (table_view members.now))) }
{
    let signals = array(members, table, Key::Signal, SIGNAL_LIMIT)?;
    let texts = text_tables(version, members, table)?;
    Ok(Inside { signals, texts })
}

// How many bytes each record stands behind the one before, in the type of a plan.
fn distance(every: Option<u32>) -> Option<u8>
    requires { IfSome every (λ n. n ≤ 255) }
    ensures { result ≡ every }
{
    match every {
        Some(bytes) => Some(bytes as u8),
        None => None,
    }
}

// The signals, and what is said of them besides.
fn parted(
    alloc: Global,
    planned: Vec<PlannedSignal>,
) -> Result<(Vec<Signal>, Vec<Meaning>), AllocError>
    ensures signals { IfOk result (λ p. p.0.items ≡ map (λ x. x.signal) planned.items) }
    ensures meanings { IfOk result (λ p. p.1.items ≡ map (λ x. x.meaning) planned.items) }
    ensures memory { OnErr result (planned.items ≢ []) }
{
    let mut signals = Vec::new(alloc);
    let mut meanings = Vec::new(alloc);
    for PlannedSignal { signal, meaning } in planned {
        signals.push(signal)?;
        meanings.push(meaning)?;
    }
    Ok((signals, meanings))
}

#[tactic(auto, using(j39_toml::proofs::FirstFaults::faults_after), unfolding(crate::specs::GroupTables::group_table_faults))]
fn group(
    alloc: Global,
    version: Version,
    index: usize,
    members: &toml::Table,
) -> Result<GroupPlan, PlanError>
    ensures { GivesGrowing (GroupGrows version index (table_view members.now)) result
        (group_table_faults version index (table_view members.now)) (DescribesGroup version (table_view members.now)) }
{
    let table = Table::Group(index);
    only_known(members, table, version, &GROUP_KEYS)?;
    let label = short_text(members, table, Key::Label, TextKind::Label, None)?;
    let pgn = number(members, table, Key::Pgn, 0, 0xff_ffff, None)?;
    let priority = number(members, table, Key::Priority, 0, 7, None)?;
    let length = number(members, table, Key::Length, 1, MESSAGE_BYTES as u32, None)?;
    let later = later_keys(version, length, members, table)?;
    let when = when(later.when, index)?;
    let arrays = arrays(version, members, table)?;
    let every = distance(later.every);
    let records = later.every.is_some();
    let reader = SignalReader {
        version,
        records,
        group: index,
    };
    let planned = read_each(alloc, &reader, arrays.signals)?;
    let parts = parted(alloc, planned)?;
    let texts = read_each(
        alloc,
        &TextReader {
            group: index,
            signals: &parts.0,
        },
        arrays.texts,
    )?;
    Ok(GroupPlan {
        label,
        pgn,
        priority: priority as u8,
        length: length as u16,
        private: later.private,
        most: later.most as u16,
        every,
        when,
        signals: parts.0,
        meanings: parts.1,
        texts,
    })
}

/// The reader of groups.
#[derive(Clone, Copy)]
pub struct GroupReader {
    pub version: Version,
}

impl ReadElement<GroupPlan, PlanFault> for GroupReader {
    ghost use Rattle.std.specs.Prelude.{ℕ, List};
    ghost use Rattle.j39_plan.specs.Growing.{GroupElementGrows};
    ghost use Rattle.j39_plan.specs.GroupTables.{group_faults, IsGroupOf};
    ghost use Rattle.j39_plan.specs.LabelsSeen.{label_in};

    ghost Label = { List ℕ };

    ghost label = { λ g. g.label.bytes };

    ghost data_label = { label_in };

    ghost faults = { λ r. group_faults r.version };

    ghost Grows = { λ r. GroupElementGrows r.version };

    ghost Describes = { λ r. IsGroupOf r.version };

    #[tactic(auto, using(j39_toml::proofs::FirstFaults::faults_after), unfolding(crate::specs::GroupTables::group_faults))]
    fn read(
        &self,
        alloc: Global,
        index: usize,
        seen: &[GroupPlan],
        value: &Value,
    ) -> Result<GroupPlan, PlanError> {
        let table = Table::Group(index);
        let group = group(
            alloc,
            self.version,
            index,
            table_of::<Table, Key>(value, table)?,
        )?;
        untaken(seen, group.label.as_str(), TextKind::Label, table)?;
        Ok(group)
    }
}
