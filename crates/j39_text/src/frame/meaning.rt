//! The lines of what a frame says besides its route.
ghost use Rattle.std.specs.Prelude.{◌≡◌, ◌++◌, length, OnOk};
ghost use Rattle.j39_text.specs.FrameText.{cannot_claim_lines, claim_lines, meaning_lines, request_line};

use super::name::write_name;
use crate::{TextBuffer, WriteResult};
use j39_id::{Frame, cannot_claim, carried_name, claims_address, requested_group, requests_group};

#[tactic(auto, unfolding(crate::specs::FrameText::claim_lines))]
fn write_claim(text: &mut TextBuffer, frame: &Frame) -> WriteResult
    requires { length frame.now.payload.items ≡ 8 }
    ensures { OnOk result (text.new ≡ text.old ++ claim_lines frame.now) }
{
    text.field("claim ", frame.ident.sa)?;
    text.word(" name ")?;
    write_name(text, carried_name(frame))
}

#[tactic(auto, unfolding(crate::specs::FrameText::cannot_claim_lines))]
fn write_cannot_claim(text: &mut TextBuffer, frame: &Frame) -> WriteResult
    requires { length frame.now.payload.items ≡ 8 }
    ensures { OnOk result (text.new ≡ text.old ++ cannot_claim_lines frame.now) }
{
    text.word("cannot name ")?;
    write_name(text, carried_name(frame))
}

#[tactic(auto, unfolding(crate::specs::FrameText::request_line))]
fn write_request(text: &mut TextBuffer, frame: &Frame) -> WriteResult
    requires { length frame.now.payload.items ≡ 3 }
    ensures { OnOk result (text.new ≡ text.old ++ request_line frame.now) }
{
    text.field("request ", requested_group(frame))?;
    text.end_line()
}

#[tactic(auto, unfolding(crate::specs::FrameText::meaning_lines))]
pub(super) fn write_meaning(text: &mut TextBuffer, frame: &Frame) -> WriteResult
    ensures { OnOk result (text.new ≡ text.old ++ meaning_lines frame.now) }
{
    if claims_address(frame) {
        write_claim(text, frame)
    } else if cannot_claim(frame) {
        write_cannot_claim(text, frame)
    } else if requests_group(frame) {
        write_request(text, frame)
    } else {
        Ok(())
    }
}
