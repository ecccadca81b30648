//! What a unit answers to what it hears.
ghost use Rattle.std.specs.Prelude.{◌≡◌, ◌<◌, true, length};
ghost use Rattle.j39_claim.specs.ClaimerValue.{can_note};
ghost use Rattle.j39_bus.specs.Stations.{station_at};
ghost use Rattle.j39_bus.specs.inside.Network.{HasAnswered};

use crate::claim_frames::number_of;
use j39_claim::{Choose, Claimer, Item, Say};
use j39_id::Name;

/// A unit hears an item under a NAME.
pub(crate) fn hear(
    claimers: &mut Vec<Claimer>,
    choosers: &[Box<dyn Choose>],
    unit: usize,
    name: Name,
    item: &Item,
) -> Option<Say>
    requires inside { unit < length claimers.old.items }
    requires choosers { length choosers.now ≡ length claimers.old.items }
    requires room { can_note (station_at claimers.old.items unit).notes name ≡ true }
    ensures rule { HasAnswered claimers.old.items unit name item.now result claimers.new.items }
{
    match item {
        Item::AddressClaimed(say) => {
            claimers[unit].hear_claim(name, number_of(say), &*choosers[unit])
        }
        Item::Request => claimers[unit].hear_request(),
    }
}
