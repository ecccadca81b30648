//! The texts of who stands behind each address, kept from one report to the next as long as no memory is refused to
//! them.
ghost use Rattle.std.specs.Prelude.{◌≡◌, IfOk};
ghost use Rattle.j39_follow.specs.Who.{who_text};
ghost use Rattle.j39_follow.specs.inside.Recounting.{ArePartyNames};

use crate::address::party_text::write_who;
use crate::address::who::Who;
use j39_network::Plan;
use j39_text::TextBuffer;
use std::alloc::{AllocError, Global};

// The text of who stands behind an address.
fn name_of(alloc: Global, plan: &Plan, who: Who, address: u8) -> Result<TextBuffer, AllocError>
    ensures { IfOk result (λ text. text ≡ who_text plan.now who address) }
{
    let mut text = TextBuffer::new(alloc);
    write_who(&mut text, plan, who, address)?;
    Ok(text)
}

/// The texts of all addresses.
pub(crate) fn names_of(
    alloc: Global,
    plan: &Plan,
    parties: &[Who; 256],
) -> Result<Vec<TextBuffer>, AllocError>
    ensures { IfOk result (λ names. ArePartyNames plan.now parties.now 256 names.items) }
{
    let mut names = Vec::new(alloc);
    for address in 0..256 {
        names.push(name_of(alloc, plan, parties[address], address as u8)?)?;
    }
    Ok(names)
}
