//! The head of a plan file: its version, the addresses that it keeps free, how many strangers may come, and whether the
//! bus is live.
ghost use Rattle.std.specs.Prelude.{◌≡◌, ◌≤◌, ℕ, true, None, Some, IfOk, IfErr};
ghost use Rattle.std.specs.FinSet.{empty, from_list, contains};
ghost use Rattle.toml.specs.View.{view, table_view, items_view};
ghost use Rattle.j39_id.specs.Addresses.{in_pool, pool_size};
ghost use Rattle.j39_plan.specs.declared.reading.place.Table.TheVariants as at;
ghost use Rattle.j39_plan.specs.Schema.{addresses_of};
ghost use Rattle.j39_toml.specs.Rules.{natural};
ghost use Rattle.j39_plan.specs.ValueCauses.{number_in, numbers_in, address_cause, addresses_cause};
ghost use Rattle.j39_toml.specs.TableFaults.{key_faults};
ghost use Rattle.j39_plan.specs.Since.{since, since_faults};
ghost use Rattle.j39_plan.specs.declared.reading.version.Version.TheVariants.{Second, Fourth};
ghost use Rattle.j39_plan.specs.PlanFaults.{version_of, version_numbered, keep_free_rule, strangers_rule, strangers_of};
ghost use Rattle.j39_plan.specs.PlanFaults.{live_rule, live_of, head_faults};
ghost use Rattle.j39_plan.specs.Described.{keep_free_of, kept_of};
ghost use Rattle.j39_toml.specs.Outcome.{Gives};

use super::keys::TOP_KEYS;
use super::tables::only_known;
use super::values::{flag, number};
use super::{Cause, Key, PlanError, Table, Version};
use j39_claim::AddressSet;
use j39_id::Address;
use j39_id::addresses::{POOL_FIRST, POOL_LAST, POOL_SIZE};
use j39_toml::{refused, value_at};
use toml::Value;

/// The address that an element reports that stands behind those with the addresses seen.
fn address(seen: &AddressSet, value: &Value) -> Result<Address, Cause>
    ensures stated { IfOk result (λ a. (address_cause seen.now (view value.now) ≡ None)
        × (a ≡ number_in (view value.now))) }
    ensures range { IfOk result (λ a. in_pool a ≡ true) }
    ensures refused { IfErr result (λ cause. address_cause seen.now (view value.now) ≡ Some cause) }
{
    let number = match value.as_integer() {
        Some(number) => number,
        None => return Err(Cause::WrongType),
    };
    if number < i64::from(POOL_FIRST) || i64::from(POOL_LAST) < number {
        return Err(Cause::Range);
    }
    match Address::new(number as u8) {
        None => unreachable!(),
        Some(address) => {
            if seen.has(address) {
                Err(Cause::Repeated)
            } else {
                Ok(address)
            }
        }
    }
}

/// The addresses that the elements report, or the first cause for which one is refused.
fn addresses(values: &[Value]) -> Result<AddressSet, Cause>
    ensures stated { IfOk result (λ s. (addresses_cause empty (items_view values.now) ≡ None)
        × (s ≡ from_list (numbers_in (items_view values.now)))) }
    ensures range { IfOk result (λ s. (a : ℕ) → contains s a ≡ true → in_pool a ≡ true) }
    ensures refused { IfErr result (λ cause. addresses_cause empty (items_view values.now) ≡ Some cause) }
{
    let mut seen = AddressSet::new();
    for value in values {
        match address(&seen, value) {
            Ok(address) => seen.insert(address),
            Err(cause) => return Err(cause),
        }
    }
    Ok(seen)
}

/// The addresses at the key, and none where it is absent.
#[tactic(auto, using(j39_toml::proofs::TableViews::items_count_view), unfolding(j39_toml::specs::TableFaults::key_faults, crate::specs::Schema::addresses_of, crate::specs::ValueCauses::addresses_up_to))]
fn keep_free(members: &toml::Table) -> Result<AddressSet, PlanError>
    ensures gives { Gives result (key_faults at.Top (table_view members.now) keep_free_rule)
        (λ s. s ≡ addresses_of keep_free_rule (table_view members.now)) }
    ensures range { IfOk result (λ s. (a : ℕ) → contains s a ≡ true → in_pool a ≡ true) }
{
    match value_at(members, Key::KeepFree) {
        None => Ok(AddressSet::new()),
        Some(value) => match value.as_array() {
            None => Err(refused(Cause::WrongType, Table::Top, Key::KeepFree)),
            Some(values) => {
                if values.len() > POOL_SIZE {
                    return Err(refused(Cause::TooMany, Table::Top, Key::KeepFree));
                }
                match addresses(values.as_slice()) {
                    Ok(kept) => Ok(kept),
                    Err(cause) => Err(refused(cause, Table::Top, Key::KeepFree)),
                }
            }
        },
    }
}

// The version of a number.
fn version_numbered(number: i64) -> Version
    ensures { result ≡ version_numbered (natural number) }
{
    match number {
        2 => Version::Second,
        3 => Version::Third,
        4 => Version::Fourth,
        _ => Version::First,
    }
}

/// The version of a plan: the first where it reports none.
#[tactic(auto, unfolding(crate::specs::PlanFaults::version_of, j39_toml::specs::Rules::number_of))]
pub fn version_of(members: &toml::Table) -> Version
    ensures { result ≡ version_of (table_view members.now) }
{
    match value_at(members, Key::Version) {
        None => Version::First,
        Some(value) => match value.as_integer() {
            None => Version::First,
            Some(number) => version_numbered(number),
        },
    }
}

// The addresses to keep free: none in a version that keeps none.
fn known_keep_free(members: &toml::Table, version: Version) -> Result<AddressSet, PlanError>
    ensures gives { Gives result (since_faults at.Top version (table_view members.now) (since Second keep_free_rule))
        (λ s. s ≡ kept_of version (table_view members.now)) }
    ensures range { IfOk result (λ s. (a : ℕ) → contains s a ≡ true → in_pool a ≡ true) }
{
    if version.knows(Version::Second) {
        keep_free(members)
    } else {
        Ok(AddressSet::new())
    }
}

/// The addresses that a plan keeps free, where its head has no fault.
#[tactic(auto, using(j39_toml::proofs::FirstFaults::faults_after))]
pub fn head(members: &toml::Table, version: Version) -> Result<AddressSet, PlanError>
    requires { version ≡ version_of (table_view members.now) }
    ensures gives { Gives result (head_faults (table_view members.now))
        (λ s. s ≡ keep_free_of (table_view members.now)) }
    ensures range { IfOk result (λ s. (a : ℕ) → contains s a ≡ true → in_pool a ≡ true) }
{
    only_known(members, Table::Top, version, &TOP_KEYS)?;
    number(members, Table::Top, Key::Version, 1, 4, None)?;
    known_keep_free(members, version)
}

/// How many strangers may come, where the version knows of them.
pub fn strangers(members: &toml::Table, version: Version) -> Result<u8, PlanError>
    ensures gives { Gives result (since_faults at.Top version (table_view members.now) (since Fourth strangers_rule))
        (λ n. n ≡ strangers_of version (table_view members.now)) }
    ensures range { IfOk result (λ n. n ≤ pool_size) }
{
    if !version.knows(Version::Fourth) {
        return Ok(0);
    }
    let strangers = number(members, Table::Top, Key::Strangers, 0, 120, Some(0))?;
    Ok(strangers as u8)
}

/// Whether the bus is live, where the version knows of it.
pub fn live(members: &toml::Table, version: Version) -> Result<bool, PlanError>
    ensures { Gives result (since_faults at.Top version (table_view members.now) (since Fourth live_rule))
        (λ b. b ≡ live_of version (table_view members.now)) }
{
    if !version.knows(Version::Fourth) {
        return Ok(false);
    }
    flag(members, Table::Top, Key::Live, false)
}
