//! What the report of a group begins with, which is the same in each report of it.
ghost use Rattle.std.specs.Prelude.{◌≡◌, ◌≢◌, [], map, IfOk, OnErr};
ghost use Rattle.j39_log.specs.ReportHeads.{report_head};

use j39_network::GroupPlan;
use j39_text::TextBuffer;
use std::alloc::{AllocError, Global};

fn report_head(alloc: Global, group: &GroupPlan) -> Result<TextBuffer, AllocError>
    ensures { IfOk result (λ text. text ≡ report_head group.now) }
{
    let mut text = TextBuffer::new(alloc);
    text.word("group ")?;
    text.word(group.label.as_str())?;
    text.word(" from ")?;
    Ok(text)
}

/// The heads of groups, in order.
pub(crate) fn report_heads(
    alloc: Global,
    groups: &[GroupPlan],
) -> Result<Vec<TextBuffer>, AllocError>
    ensures heads { IfOk result (λ heads. heads.items ≡ map report_head groups.now) }
    ensures memory { OnErr result (groups.now ≢ []) }
{
    let mut heads = Vec::new(alloc);
    for group in groups {
        heads.push(report_head(alloc, group)?)?;
    }
    Ok(heads)
}
