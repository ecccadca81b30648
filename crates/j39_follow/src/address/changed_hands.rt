//! Pairs of which an address changes hands.
ghost use Rattle.std.specs.Prelude.{◌≡◌, ◌<◌, ◌==◌, ◌||◌, ℕ, List, Option, Some, None, if◌then◌else◌, length, not};
ghost use Rattle.j39_id.specs.declared.frame.Frame.{Frame as AFrame};
ghost use Rattle.j39_tp.specs.Receiver.{fresh};
ghost use Rattle.j39_tp.specs.declared.receiving.manner.Manner.TheVariants.{Listening};
ghost use Rattle.j39_follow.specs.Who.{stranger_of};
ghost use Rattle.j39_follow.specs.Holders.{IsHolder};
ghost use Rattle.j39_follow.specs.inside.Hearing.{AreReplaced, is_changed, is_same_number};
ghost use Rattle.j39_follow.specs.inside.Hearing.{is_same_party as is_one_party, kept_between, listener_between};

use crate::address::who::Who;
use crate::pair::heard_pairs::HeardPairs;
use j39_id::{Frame, carried_name, claims_address};

// The NAME that isn't planned, if it is one.
fn stranger(who: Who) -> Option<u64>
    ensures { result ≡ stranger_of who }
{
    match who {
        Who::Stranger(name) | Who::LikelyStranger(name) => Some(name),
        _ => None,
    }
}

/// Whether the two are one unit, one NAME, or both nobody.
pub(crate) fn is_same_party(a: Who, b: Who) -> bool
    ensures { result ≡ is_one_party a b }
{
    a.unit() == b.unit() && stranger(a) == stranger(b)
}

/// The address that a frame takes from the NAME that holds its source, if it is another one.
pub(crate) fn replaced(holder: Option<u64>, frame: &Frame) -> Option<u8>
    ensures { (frames : List AFrame) → IsHolder frames frame.now.ident.sa holder → AreReplaced frames frame.now result }
{
    let Some(holder) = holder else {
        return None;
    };
    if !claims_address(frame) {
        return None;
    }
    if carried_name(frame).to_bits() == holder {
        return None;
    }
    Some(frame.ident.sa)
}

// Whether an address has another party, or is the one that another NAME has come to hold.
fn differs(old: Who, new: Who, replaced: Option<u8>, address: u8) -> bool
    ensures { result ≡ (not (is_one_party old new) || is_same_number replaced (Some address)) }
{
    !is_same_party(old, new) || replaced == Some(address)
}

/// Each pair of which an address changes hands begins anew.
pub(crate) fn begin_anew(
    pairs: &mut HeardPairs,
    old: &[Who; 256],
    new: &[Who; 256],
    replaced: Option<u8>,
)
    ensures listeners { (s d : ℕ) → s < 256 → d < 256 → listener_between pairs.new s d
        ≡ (if is_changed old.now new.now replaced s d then fresh Listening else listener_between pairs.old s d) }
    ensures collections { (s d : ℕ) → s < 256 → d < 256 → kept_between pairs.new s d
        ≡ (if is_changed old.now new.now replaced s d then None else kept_between pairs.old s d) }
{
    for address in 0..256 {
        if differs(old[address], new[address], replaced, address as u8) {
            pairs.forget(address as u8);
        }
    }
}
