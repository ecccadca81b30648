//! The frames about addresses.
ghost use Rattle.std.specs.Prelude.{◌≡◌, ◌≤◌, length};
ghost use Rattle.j39_id.specs.Ident.{bits};
ghost use Rattle.j39_claim.specs.ClaimRule.{say_of};
ghost use Rattle.j39_world.specs.Sent.{source_of, sent_of, frame_of, to_all, claimed_by};

use arrayvec::ArrayVec;
use j39_claim::{Item, Say};
use j39_id::addresses::{GLOBAL_ADDRESS, NULL_ADDRESS};
use j39_id::services::{ADDRESS_CLAIMED, CLAIM_PRIORITY, REQUEST};
use j39_id::{Address, Frame, Ident, Name, Pgn};

// The identifier of a group that is sent to all.
fn to_all(pgn: Pgn, source: u8) -> Ident
    ensures { bits result ≡ to_all pgn source }
{
    Ident::new(CLAIM_PRIORITY, pgn, GLOBAL_ADDRESS, source)
}

pub(crate) fn source_of(held: Option<Address>) -> u8
    ensures { result ≡ source_of held }
{
    match held {
        Some(address) => address.number(),
        None => NULL_ADDRESS,
    }
}

/// The number of the address that is claimed, or of none.
pub(crate) fn number_of(say: &Say) -> u8
    ensures says { say_of result ≡ say.now }
    ensures source { result ≡ source_of (claimed_by say.now) }
{
    match say {
        Say::Claim(address) => address.number(),
        Say::Cannot => NULL_ADDRESS,
    }
}

pub(crate) fn payload_of(bytes: &[u8]) -> ArrayVec<u8, 8>
    requires { length bytes.now ≤ 8 }
    ensures { result.items ≡ bytes.now }
{
    let mut payload = ArrayVec::new();
    let _ = payload.try_extend_from_slice(bytes);
    payload
}

/// The frame by which a unit of this NAME that holds this address sends an item.
pub(crate) fn frame_of(name: Name, held: Option<Address>, item: &Item) -> Frame
    ensures { sent_of result ≡ frame_of name held item.now }
{
    match item {
        Item::AddressClaimed(say) => Frame {
            ident: to_all(ADDRESS_CLAIMED, number_of(say)),
            payload: payload_of(&name.to_bytes()),
        },
        Item::Request => Frame {
            ident: to_all(REQUEST, source_of(held)),
            payload: payload_of(&ADDRESS_CLAIMED.to_bytes()),
        },
    }
}
