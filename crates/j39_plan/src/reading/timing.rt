//! What a plan file reports of the bus itself.
ghost use Rattle.std.specs.Prelude.{◌≡◌, ◌≤◌, [], true, option_map, IfOk};
ghost use Rattle.std.specs.Option.{option_map_or};
ghost use Rattle.toml.specs.View.{table_view};
ghost use Rattle.j39_toml.specs.Rules.{number_of};
ghost use Rattle.j39_plan.specs.declared.reading.place.Table.TheVariants as at;
ghost use Rattle.j39_toml.specs.TableFaults.{key_faults};
ghost use Rattle.j39_plan.specs.Since.{is_known, known_faults};
ghost use Rattle.j39_plan.specs.declared.reading.version.Version.TheVariants.{Third};
ghost use Rattle.j39_plan.specs.TimingTables as spec;
ghost use Rattle.j39_plan.specs.PlanFaults.{version_of, timing_faults, timing_table};
ghost use Rattle.j39_toml.specs.Outcome.{Gives};

use super::keys::{ERROR_KEYS, TIMING_KEYS};
use super::tables::{only_known, optional_inner};
use super::values::{bitrate_number, number};
use super::{Key, PlanError, Table, Version};
use j39_network::{Bitrate, ErrorRate, Timing};
use j39_toml::only;

fn bitrate(members: &toml::Table, version: Version) -> Result<Bitrate, PlanError>
    ensures { Gives result (key_faults at.Timing (table_view members.now) (spec.bitrate_rule version))
        (λ b. b ≡ spec.bitrate_of (number_of (spec.bitrate_rule version) (table_view members.now))) }
{
    let more = version.knows(Version::Fourth);
    Ok(
        match bitrate_number(members, Table::Timing, Key::Bitrate, more)? {
            125_000 => Bitrate::Kbit125,
            500_000 => Bitrate::Kbit500,
            1_000_000 => Bitrate::Mbit1,
            _ => Bitrate::Kbit250,
        },
    )
}

// What stands behind the frames that aren't planned: priorities, the gaps of broadcasts, clocks, and the table of
// errors.
#[derive(Clone, Copy)]
struct LaterKeys<'a> {
    unplanned_priority: u32,
    transport_priority: u32,
    gap: u32,
    gap_most: u32,
    drift: u32,
    errors: Option<&'a toml::Table>,
}

#[tactic(auto, using(j39_toml::proofs::FirstFaults::faults_after))]
fn later_keys(members: &toml::Table, version: Version) -> Result<LaterKeys, PlanError>
    ensures gives { Gives result (known_faults at.Timing version (table_view members.now)
        (spec.later_timing_rules (table_view members.now)))
        (λ later. (later.unplanned_priority ≡ spec.unplanned_priority_of version (table_view members.now))
        × (later.transport_priority ≡ spec.transport_priority_of version (table_view members.now))
        × (later.gap ≡ spec.gap_of version (table_view members.now))
        × (later.gap_most ≡ spec.gap_most_of version (table_view members.now))
        × (later.drift ≡ spec.drift_of version (table_view members.now))
        × (option_map (λ t. table_view t.now) later.errors ≡ spec.errors_table version (table_view members.now))) }
    ensures unplanned_priority { IfOk result (λ later. later.unplanned_priority ≤ 6) }
    ensures transport_priority { IfOk result (λ later. later.transport_priority ≤ 7) }
    ensures gap_least { IfOk result (λ later. 10 ≤ later.gap) }
    ensures gap { IfOk result (λ later. later.gap ≤ 200) }
    ensures order { IfOk result (λ later. later.gap ≤ later.gap_most) }
    ensures gap_most { IfOk result (λ later. later.gap_most ≤ 750) }
    ensures drift { IfOk result (λ later. later.drift ≤ 20000) }
{
    if !version.knows(Version::Fourth) {
        return Ok(LaterKeys {
            unplanned_priority: 6,
            transport_priority: 7,
            gap: 50,
            gap_most: 200,
            drift: 0,
            errors: None,
        });
    }
    let table = Table::Timing;
    let unplanned_priority = number(members, table, Key::UnplannedPriority, 0, 6, Some(6))?;
    let transport_priority = number(members, table, Key::TransportPriority, 0, 7, Some(7))?;
    let gap = number(members, table, Key::BroadcastGap, 10, 200, Some(50))?;
    let gap_most = number(members, table, Key::BroadcastGapMost, gap, 750, Some(200))?;
    let drift = number(members, table, Key::Drift, 0, 20_000, Some(0))?;
    let errors = optional_inner(members, table, Key::Errors)?;
    Ok(LaterKeys {
        unplanned_priority,
        transport_priority,
        gap,
        gap_most,
        drift,
        errors,
    })
}

#[tactic(auto, using(j39_toml::proofs::FirstFaults::faults_after), unfolding(crate::specs::TimingTables::error_table_faults))]
fn error_rate(members: &toml::Table) -> Result<ErrorRate, PlanError>
    ensures { Gives result (spec.error_table_faults (table_view members.now))
        (spec.DescribesErrorRate (table_view members.now)) }
{
    let table = Table::TimingErrors;
    only(members, table, &ERROR_KEYS)?;
    let count = number(members, table, Key::Count, 1, 100, None)?;
    let every = number(members, table, Key::Every, 1, 65_535, None)?;
    Ok(ErrorRate {
        count: count as u16,
        every: every as u16,
    })
}

// How many frames are damaged at most, where there is a table of it.
fn errors(inner: Option<&toml::Table>) -> Result<Option<ErrorRate>, PlanError>
    ensures { let found = option_map (λ t. table_view t.now) inner.entry in
        Gives result (option_map_or spec.error_table_faults found []) (spec.DescribesErrors found) }
{
    match inner {
        None => Ok(None),
        Some(members) => Ok(Some(error_rate(members)?)),
    }
}

#[tactic(auto, using(j39_toml::proofs::FirstFaults::faults_after), unfolding(crate::specs::TimingTables::timing_table_faults))]
fn bus(members: &toml::Table, version: Version) -> Result<Timing, PlanError>
    requires { is_known Third version ≡ true }
    ensures { Gives result (spec.timing_table_faults version (table_view members.now))
        (spec.DescribesBus version (table_view members.now)) }
{
    only_known(members, Table::Timing, version, &TIMING_KEYS)?;
    let bitrate = bitrate(members, version)?;
    let unplanned = number(members, Table::Timing, Key::Unplanned, 0, 1000, None)?;
    let later = later_keys(members, version)?;
    let errors = errors(later.errors)?;
    Ok(Timing {
        bitrate,
        unplanned: unplanned as u16,
        unplanned_priority: later.unplanned_priority as u8,
        transport_priority: later.transport_priority as u8,
        broadcast_gap: later.gap as u16,
        broadcast_gap_most: later.gap_most as u16,
        drift: later.drift as u16,
        errors,
    })
}

/// What is known of the bus, where the version knows its table and there is one.
#[tactic(auto, using(j39_toml::proofs::FirstFaults::faults_after))]
pub fn timing(members: &toml::Table, version: Version) -> Result<Option<Timing>, PlanError>
    requires { version ≡ version_of (table_view members.now) }
    ensures { Gives result (timing_faults (table_view members.now))
        (spec.DescribesTiming (version_of (table_view members.now)) (timing_table (table_view members.now))) }
{
    if !version.knows(Version::Third) {
        return Ok(None);
    }
    match optional_inner(members, Table::Top, Key::Timing)? {
        None => Ok(None),
        Some(inner) => Ok(Some(bus(inner, version)?)),
    }
}
