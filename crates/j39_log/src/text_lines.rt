//! The lines of the texts of a group.
ghost use Rattle.std.specs.Prelude.{◌≡◌, ◌++◌, OnOk};
ghost use Rattle.j39_log.specs.TextLines.{text_bytes, text_line, text_lines};

use j39_network::TextPlan;
use j39_text::{TextBuffer, WriteResult, write_quotation};

// The bytes of a text, those of them that came.
#[tactic(auto, unfolding(crate::specs::TextLines::text_bytes))]
fn text_bytes<'a>(plan: &TextPlan, bytes: &'a [u8]) -> &'a [u8]
    ensures { result.now ≡ text_bytes plan.now bytes.now }
{
    let start = usize::from(plan.byte - 1).min(bytes.len());
    let rest = &bytes[start..];
    match plan.bytes {
        Some(count) => &rest[..usize::from(count).min(rest.len())],
        None => rest,
    }
}

// Few groups have texts, so what writes one is no part of the code that writes a report.
#[inline(never)]
#[tactic(auto, unfolding(crate::specs::TextLines::text_line))]
fn write_text(text: &mut TextBuffer, plan: &TextPlan, bytes: &[u8]) -> WriteResult
    ensures { OnOk result (text.new ≡ text.old ++ text_line plan.now bytes.now) }
{
    text.word("  ")?;
    text.word(plan.label.as_str())?;
    text.word(" text ")?;
    write_quotation(text, text_bytes(plan, bytes))?;
    text.end_line()
}

/// Writes the texts of a group that stand in these bytes.
pub(crate) fn write_texts(text: &mut TextBuffer, texts: &[TextPlan], bytes: &[u8]) -> WriteResult
    ensures { OnOk result (text.new ≡ text.old ++ text_lines texts.now bytes.now) }
{
    for plan in texts {
        write_text(text, plan, bytes)?;
    }
    Ok(())
}
