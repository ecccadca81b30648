//! The selector of a group.
ghost use Rattle.std.specs.Prelude.{◌≡◌, ◌≤◌, ◌-◌, ◌^◌, [], option_map};
ghost use Rattle.std.specs.Option.{option_map_or};
ghost use Rattle.toml.specs.View.{table_view};
ghost use Rattle.j39_toml.specs.Outcome.{Gives};
ghost use Rattle.j39_plan.specs.SelectorTables.{DescribesSelector, DescribesWhen, selector_table_faults};

use super::keys::SELECTOR_KEYS;
use super::signals::start_of;
use super::values::number;
use super::{Key, PlanError, Table};
use j39_id::limits::MESSAGE_BYTES;
use j39_signal::Selector;
use j39_toml::only;

// The greatest number that so many bits hold.
fn greatest(bits: u32) -> u32
    requires { bits ≤ 32 }
    ensures { result ≡ 2 ^ bits - 1 }
{
    let most: u64 = (1 << bits) - 1;
    most as u32
}

#[tactic(auto, using(j39_toml::proofs::FirstFaults::faults_after), unfolding(crate::specs::SelectorTables::selector_table_faults))]
fn selector(members: &toml::Table, group: usize) -> Result<Selector, PlanError>
    ensures { Gives result (selector_table_faults group (table_view members.now))
        (DescribesSelector (table_view members.now)) }
{
    let table = Table::GroupWhen(group);
    only(members, table, &SELECTOR_KEYS)?;
    let byte = number(members, table, Key::Byte, 1, MESSAGE_BYTES as u32, None)?;
    let bit = number(members, table, Key::Bit, 1, 8, Some(1))?;
    let bits = number(members, table, Key::Bits, 1, 32, None)?;
    let value = number(members, table, Key::Value, 0, greatest(bits), None)?;
    Ok(Selector {
        start: start_of(byte, bit),
        bits: bits as u8,
        value,
    })
}

/// The selector of the group at a place, where there is a table of it.
pub fn when(inner: Option<&toml::Table>, group: usize) -> Result<Option<Selector>, PlanError>
    ensures { let found = option_map (λ t. table_view t.now) inner.entry in
        Gives result (option_map_or (selector_table_faults group) found []) (DescribesWhen found) }
{
    match inner {
        None => Ok(None),
        Some(members) => Ok(Some(selector(members, group)?)),
    }
}
