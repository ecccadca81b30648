//! Bytes between two quotation marks.
ghost use Rattle.std.specs.Prelude.{◌≡◌, ◌++◌, OnOk};
ghost use Rattle.j39_text.specs.Quotations.{is_plain, quotation, spelled, spelled_byte};

use crate::{TextBuffer, WriteResult};

// Whether a byte stands for itself: a visible ASCII character or a space, but no mark and no backslash.
fn is_plain(byte: u8) -> bool
    ensures { result ≡ is_plain byte }
{
    (b' '..=b'~').contains(&byte) && byte != b'"' && byte != b'\\'
}

#[tactic(auto, unfolding(crate::specs::Quotations::spelled_byte))]
fn write_byte(text: &mut TextBuffer, byte: u8) -> WriteResult
    ensures { OnOk result (text.new ≡ text.old ++ spelled_byte byte) }
{
    if is_plain(byte) {
        text.bytes(&[byte])
    } else {
        text.word("\\x")?;
        text.hex(&[byte])
    }
}

fn write_spelled(text: &mut TextBuffer, bytes: &[u8]) -> WriteResult
    ensures { OnOk result (text.new ≡ text.old ++ spelled bytes.now) }
{
    for byte in bytes {
        write_byte(text, *byte)?;
    }
    Ok(())
}

/// Writes bytes between two quotation marks: visible ASCII characters and spaces as they are, but marks, backslashes
/// and all other bytes as a backslash, an `x` and two capital digits.
#[tactic(auto, unfolding(crate::specs::Quotations::quotation))]
pub fn write_quotation(text: &mut TextBuffer, bytes: &[u8]) -> WriteResult
    ensures { OnOk result (text.new ≡ text.old ++ quotation bytes.now) }
{
    text.word("\"")?;
    write_spelled(text, bytes)?;
    text.word("\"")
}
