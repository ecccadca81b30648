//! The flows of a plan.
ghost use Rattle.std.specs.Prelude.{◌≡◌, ◌≤◌, ◌++◌, [], map, Some, IfOk, IfSome};
ghost use Rattle.std.specs.Option.{ForSome};
ghost use Rattle.toml.specs.View.{table_view};
ghost use Rattle.j39_toml.specs.Outcome.{Gives};
ghost use Rattle.j39_plan.specs.Since.{since, since_faults, known_faults};
ghost use Rattle.j39_plan.specs.declared.reading.version.Version.TheVariants.{Third};
ghost use Rattle.j39_plan.specs.FlowTables as spec;

use super::keys::FLOW_KEYS;
use super::labels::{Labelled, place_of};
use super::tables::only_known;
use super::text_kind::TextKind;
use super::values::{flag, has_key, number};
use super::{Cause, Key, PlanError, PlanFault, Table, Version};
use j39_network::{FlowPlan, GroupPlan, Pace, To, UnitPlan};
use j39_toml::{ReadElement, given_number, refused, required_text, table_of};
use std::alloc::Global;
use toml::Value;

// The most milliseconds of a period, a deadline, a jitter and a pause.
const MS_MOST: u32 = 65_535;

/// The place of the item that a text names.
#[tactic(auto, unfolding(crate::specs::FlowTables::place_faults))]
pub fn place<T: Labelled>(
    items: &[T],
    label: &str,
    table: Table,
    key: Key,
) -> Result<usize, PlanError>
    ensures { Gives result (spec.place_faults table key (map T.label_bytes items.now) (Some label.now))
        (λ p. spec.place_of (map T.label_bytes items.now) label.now ≡ Some p) }
{
    match place_of(items, label) {
        Some(place) => Ok(place),
        None => Err(refused(Cause::UnknownLabel, table, key)),
    }
}

#[tactic(auto, unfolding(crate::specs::FlowTables::receivers))]
fn receivers(units: &[UnitPlan], word: &str) -> Option<To>
    ensures { result ≡ spec.receivers (map (λ u. u.label.bytes) units.now) word.now }
{
    if word == "all" {
        Some(To::All)
    } else {
        place_of(units, word).map(To::One)
    }
}

/// The receivers that a text names.
#[tactic(auto, unfolding(crate::specs::FlowTables::receiver_faults))]
pub fn to(units: &[UnitPlan], word: &str, table: Table) -> Result<To, PlanError>
    ensures { Gives result (spec.receiver_faults table (map (λ u. u.label.bytes) units.now) (Some word.now))
        (λ t. spec.receivers (map (λ u. u.label.bytes) units.now) word.now ≡ Some t) }
{
    match receivers(units, word) {
        Some(to) => Ok(to),
        None => Err(refused(Cause::UnknownLabel, table, Key::To)),
    }
}

/// A number of milliseconds, in the type of a plan.
pub fn milliseconds(given: Option<u32>) -> Option<u16>
    requires { IfSome given (λ n. n ≤ 65535) }
    ensures { result ≡ given }
{
    match given {
        Some(number) => Some(number as u16),
        None => None,
    }
}

// How far behind its releases a flow is sent, for how long it is silent, and whether it is sent on request alone.
#[derive(Clone, Copy)]
struct LaterPace {
    jitter: u32,
    pause: Option<u32>,
    on_request: bool,
}

// The same, by the period, where the version knows it.
#[tactic(auto, using(j39_toml::proofs::FirstFaults::faults_after))]
fn later_pace(
    members: &toml::Table,
    table: Table,
    version: Version,
    period: Option<u32>,
) -> Result<LaterPace, PlanError>
    requires some { IfSome period (λ n. 1 ≤ n) }
    requires few { IfSome period (λ n. n ≤ 65535) }
    ensures gives { Gives result (known_faults table version (table_view members.now) (spec.later_pace_rules period))
        (λ later. (later.jitter ≡ spec.jitter_of version period (table_view members.now))
        × (later.pause ≡ spec.pause_of version period (table_view members.now))
        × (later.on_request ≡ spec.on_request_of version (table_view members.now))) }
    ensures below { IfOk result (λ later. later.jitter ≤ spec.jitter_most period) }
    ensures some { IfOk result (λ later. IfSome later.pause (λ n. 1 ≤ n)) }
    ensures few { IfOk result (λ later. IfSome later.pause (λ n. n ≤ 65535)) }
{
    if !version.knows(Version::Fourth) {
        return Ok(LaterPace {
            jitter: 0,
            pause: None,
            on_request: false,
        });
    }
    let (jitter_most, pause_least) = match period {
        Some(period) => (period - 1, period),
        None => (MS_MOST, 1),
    };
    let jitter = number(members, table, Key::Jitter, 0, jitter_most, Some(0))?;
    let pause = given_number(members, table, Key::Pause, pause_least, MS_MOST, false)?;
    let on_request = flag(members, table, Key::OnRequest, false)?;
    Ok(LaterPace {
        jitter,
        pause,
        on_request,
    })
}

// How often a flow is sent, for how long it is silent, and whether it is sent on request alone, where its table says
// it.
#[derive(Clone, Copy)]
struct Rhythm {
    pace: Option<Pace>,
    pause: Option<u16>,
    on_request: bool,
    ghost pause_positive: { ForSome pause (λ n. 1 ≤ n) },
}

// The period, for which other keys may ask: none in a version that doesn't know it.
fn known_period(
    members: &toml::Table,
    table: Table,
    version: Version,
) -> Result<Option<u32>, PlanError>
    ensures gives { Gives result (since_faults table version (table_view members.now)
        (since Third (spec.period_rule version (table_view members.now))))
        (λ n. n ≡ spec.given_period version (table_view members.now)) }
    ensures some { IfOk result (λ found. IfSome found (λ n. 1 ≤ n)) }
    ensures few { IfOk result (λ found. IfSome found (λ n. n ≤ 65535)) }
{
    if !version.knows(Version::Third) {
        return Ok(None);
    }
    let jitter = version.knows(Version::Fourth) && has_key(members, Key::Jitter);
    if jitter || has_key(members, Key::Deadline) {
        given_number(members, table, Key::Period, 1, MS_MOST, true)
    } else {
        given_number(members, table, Key::Period, 1, MS_MOST, false)
    }
}

// The deadline: none in a version that doesn't know it.
fn known_deadline(
    members: &toml::Table,
    table: Table,
    version: Version,
) -> Result<Option<u32>, PlanError>
    ensures gives { Gives result (since_faults table version (table_view members.now) (since Third spec.deadline_rule))
        (λ n. n ≡ spec.given_deadline version (table_view members.now)) }
    ensures some { IfOk result (λ found. IfSome found (λ n. 1 ≤ n)) }
    ensures few { IfOk result (λ found. IfSome found (λ n. n ≤ 65535)) }
{
    if version.knows(Version::Third) {
        given_number(members, table, Key::Deadline, 1, MS_MOST, false)
    } else {
        Ok(None)
    }
}

#[tactic(auto, using(j39_toml::proofs::FirstFaults::faults_after))]
fn known_rhythm(members: &toml::Table, table: Table, version: Version) -> Result<Rhythm, PlanError>
    ensures { Gives result (known_faults table version (table_view members.now)
        (spec.pace_rules version (table_view members.now)))
        (λ rhythm. spec.DescribesPace version (table_view members.now) rhythm.pace
        × (rhythm.pause
        ≡ spec.pause_of version (spec.given_period version (table_view members.now)) (table_view members.now))
        × (rhythm.on_request ≡ spec.on_request_of version (table_view members.now))) }
{
    let period = known_period(members, table, version)?;
    let deadline = known_deadline(members, table, version)?;
    let later = later_pace(members, table, version, period)?;
    let pace = match period {
        None => None,
        Some(period) => Some(Pace {
            period: period as u16,
            deadline: milliseconds(deadline),
            jitter: later.jitter as u16,
        }),
    };
    Ok(Rhythm {
        pace,
        pause: milliseconds(later.pause),
        on_request: later.on_request,
    })
}

// What a flow is sent of, by whom and to whom.
#[derive(Clone, Copy)]
struct FlowEnds {
    group: usize,
    sender: usize,
    to: To,
}

// What the texts of a flow name.
#[tactic(auto, using(j39_toml::proofs::FirstFaults::faults_after))]
fn ends(
    groups: &[GroupPlan],
    units: &[UnitPlan],
    table: Table,
    group: &str,
    sender: &str,
    receivers: &str,
) -> Result<FlowEnds, PlanError>
    ensures { let group_labels = map (λ g. g.label.bytes) groups.now in
        let unit_labels = map (λ u. u.label.bytes) units.now in
        Gives result (spec.place_faults table Key.Group group_labels (Some group.now)
        ++ (spec.place_faults table Key.From unit_labels (Some sender.now)
        ++ spec.receiver_faults table unit_labels (Some receivers.now)))
        (λ e. (spec.place_of group_labels group.now ≡ Some e.group)
        × (spec.place_of unit_labels sender.now ≡ Some e.sender)
        × (spec.receivers unit_labels receivers.now ≡ Some e.to)) }
{
    let group = place(groups, group, table, Key::Group)?;
    let sender = place(units, sender, table, Key::From)?;
    let to = to(units, receivers, table)?;
    Ok(FlowEnds { group, sender, to })
}

/// The reader of flows between units.
#[derive(Clone, Copy)]
pub struct FlowReader<'a> {
    pub version: Version,
    pub groups: &'a [GroupPlan],
    pub units: &'a [UnitPlan],
}

#[tactic(auto, using(j39_toml::proofs::FirstFaults::faults_after), unfolding(crate::specs::FlowTables::flow_table_faults))]
fn flow(
    version: Version,
    groups: &[GroupPlan],
    units: &[UnitPlan],
    index: usize,
    members: &toml::Table,
) -> Result<FlowPlan, PlanError>
    ensures { let group_labels = map (λ g. g.label.bytes) groups.now in
        let unit_labels = map (λ u. u.label.bytes) units.now in
        Gives result (spec.flow_table_faults version group_labels unit_labels index (table_view members.now))
        (spec.DescribesFlow version group_labels unit_labels (table_view members.now)) }
{
    let table = Table::Flow(index);
    only_known(members, table, version, &FLOW_KEYS)?;
    let group_text = required_text(members, table, Key::Group, TextKind::Any)?;
    let from_text = required_text(members, table, Key::From, TextKind::Any)?;
    let to_text = required_text(members, table, Key::To, TextKind::Any)?;
    let rhythm = known_rhythm(members, table, version)?;
    let ends = ends(groups, units, table, group_text, from_text, to_text)?;
    Ok(FlowPlan {
        group: ends.group,
        sender: ends.sender,
        to: ends.to,
        pace: rhythm.pace,
        pause: rhythm.pause,
        on_request: rhythm.on_request,
    })
}

impl ReadElement<FlowPlan, PlanFault> for FlowReader<'_> {
    ghost use Rattle.std.specs.Prelude.{ℕ, List};
    ghost use Rattle.j39_toml.specs.InOrder.{NeverGrows};
    ghost use Rattle.j39_plan.specs.PlanFaults.{no_label};
    ghost use Rattle.j39_plan.specs.FlowTables.{flow_faults, IsFlowOf};

    ghost Label = { List ℕ };

    ghost label = { λ _. [] };

    ghost data_label = { no_label };

    ghost faults = { λ r i seen. flow_faults r.version (map (λ g. g.label.bytes) r.groups.now)
        (map (λ u. u.label.bytes) r.units.now) i };

    ghost Grows = { λ _. NeverGrows };

    ghost Describes = { λ r. IsFlowOf r.version (map (λ g. g.label.bytes) r.groups.now)
        (map (λ u. u.label.bytes) r.units.now) };

    #[tactic(auto, using(j39_toml::proofs::FirstFaults::faults_after), unfolding(crate::specs::FlowTables::flow_faults))]
    fn read(
        &self,
        _alloc: Global,
        index: usize,
        _seen: &[FlowPlan],
        value: &Value,
    ) -> Result<FlowPlan, PlanError> {
        flow(
            self.version,
            self.groups,
            self.units,
            index,
            table_of::<Table, Key>(value, Table::Flow(index))?,
        )
    }
}
