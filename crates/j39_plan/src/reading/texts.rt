//! The texts of a group.
ghost use Rattle.toml.specs.View.{table_view};
ghost use Rattle.j39_toml.specs.Outcome.{Gives};
ghost use Rattle.j39_plan.specs.TextTables.{text_table_faults, DescribesText};

use super::keys::TEXT_KEYS;
use super::labels::untaken_beside;
use super::text_kind::TextKind;
use super::values::{number, short_text};
use super::{Key, PlanError, PlanFault, Table};
use j39_id::limits::MESSAGE_BYTES;
use j39_network::TextPlan;
use j39_signal::Signal;
use j39_toml::{ReadElement, given_number, only, table_of};
use std::alloc::Global;
use toml::Value;

#[tactic(auto, using(j39_toml::proofs::FirstFaults::faults_after), unfolding(crate::specs::TextTables::text_table_faults))]
fn text(table: Table, members: &toml::Table) -> Result<TextPlan, PlanError>
    ensures { Gives result (text_table_faults table (table_view members.now)) (DescribesText (table_view members.now)) }
{
    only(members, table, &TEXT_KEYS)?;
    let label = short_text(members, table, Key::Label, TextKind::Label, None)?;
    let byte = number(members, table, Key::Byte, 1, MESSAGE_BYTES as u32, None)?;
    let bytes = given_number(members, table, Key::Bytes, 1, MESSAGE_BYTES as u32, false)?;
    Ok(TextPlan {
        label,
        byte: byte as u16,
        bytes: match bytes {
            Some(count) => Some(count as u16),
            None => None,
        },
    })
}

/// The reader of the texts of the group at a place, behind its signals.
#[derive(Clone, Copy)]
pub struct TextReader<'a> {
    pub group: usize,
    pub signals: &'a [Signal],
}

impl ReadElement<TextPlan, PlanFault> for TextReader<'_> {
    ghost use Rattle.std.specs.Prelude.{ℕ, List, map};
    ghost use Rattle.j39_toml.specs.InOrder.{NeverGrows};
    ghost use Rattle.j39_plan.specs.TextTables.{text_faults, IsTextOf};
    ghost use Rattle.j39_plan.specs.LabelsSeen.{label_in};

    ghost Label = { List ℕ };

    ghost label = { λ t. t.label.bytes };

    ghost data_label = { label_in };

    ghost faults = { λ r. text_faults (map (λ s. s.label.bytes) r.signals.now) r.group };

    ghost Grows = { λ _. NeverGrows };

    ghost Describes = { λ _. IsTextOf };

    #[tactic(auto, using(j39_toml::proofs::FirstFaults::faults_after), unfolding(crate::specs::TextTables::text_faults))]
    fn read(
        &self,
        _alloc: Global,
        index: usize,
        seen: &[TextPlan],
        value: &Value,
    ) -> Result<TextPlan, PlanError> {
        let table = Table::Text(self.group, index);
        let text = text(table, table_of::<Table, Key>(value, table)?)?;
        untaken_beside(
            self.signals,
            seen,
            text.label.as_str(),
            TextKind::Label,
            table,
        )?;
        Ok(text)
    }
}
