//! Where a frame comes from and goes to.
ghost use Rattle.std.specs.Prelude.{◌≡◌, ◌++◌, OnOk};
ghost use Rattle.j39_text.specs.FrameText.{destination_text, page_text, route_line};

use crate::{TextBuffer, WriteResult};
use j39_id::Ident;
use j39_id::addresses::GLOBAL_ADDRESS;

/// Writes where a frame goes to: to all, or to an address.
#[tactic(auto, using(crate::proofs::Destinations::pdu2_kept), unfolding(crate::specs::FrameText::destination_text))]
#[inline(always)]
pub fn write_destination(text: &mut TextBuffer, ident: Ident) -> WriteResult
    ensures { OnOk result (text.new ≡ text.old ++ destination_text ident) }
{
    match ident.destination() {
        Some(GLOBAL_ADDRESS) | None => text.word("all"),
        Some(address) => text.number(address),
    }
}

#[tactic(auto, unfolding(crate::specs::FrameText::page_text))]
fn write_page(text: &mut TextBuffer, ident: Ident) -> WriteResult
    ensures { OnOk result (text.new ≡ text.old ++ page_text ident) }
{
    text.word(if ident.edp == 1 { " other" } else { "" })
}

#[tactic(auto, unfolding(crate::specs::FrameText::route_line))]
pub(super) fn write_route(text: &mut TextBuffer, ident: Ident) -> WriteResult
    ensures { OnOk result (text.new ≡ text.old ++ route_line ident) }
{
    text.field("priority ", ident.priority)?;
    text.field(" pgn ", ident.pgn().number())?;
    text.field(" from ", ident.sa)?;
    text.word(" to ")?;
    write_destination(text, ident)?;
    write_page(text, ident)?;
    text.end_line()
}
