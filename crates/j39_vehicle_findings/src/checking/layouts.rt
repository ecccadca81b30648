//! Which copies go into other layouts.
ghost use Rattle.std.specs.Prelude.{◌≡◌};
ghost use Rattle.std.specs.List.{list_any};
ghost use Rattle.j39_vehicle_findings.specs.FoundPaths.{copies_other_layout, has_other_records, has_other_selector};
ghost use Rattle.j39_vehicle_findings.specs.FoundPaths.{have_other_layouts, is_selector, same_byte};

use crate::buses::group_at;
use crate::forwards::copies;
use j39_network::GroupPlan;
use j39_signal::Selector;
use j39_vehicle::{Forward, Vehicle};

fn same_byte(one: Option<u8>, other: Option<u8>) -> bool
    ensures { result ≡ same_byte one other }
{
    match (one, other) {
        (None, None) => true,
        (Some(one), Some(other)) => one == other,
        (Some(_), None) => false,
        (None, Some(_)) => false,
    }
}

fn is_selector(selector: Selector, other: Option<Selector>) -> bool
    ensures { result ≡ is_selector selector other }
{
    match other {
        None => false,
        Some(other) => {
            selector.start == other.start
                && selector.bits == other.bits
                && selector.value == other.value
        }
    }
}

// Whether the second group has a selector that isn't the first one's.
fn has_other_selector(heard: &GroupPlan, sent: &GroupPlan) -> bool
    ensures { result ≡ has_other_selector heard.now sent.now }
{
    match sent.when {
        None => false,
        Some(selector) => !is_selector(selector, heard.when),
    }
}

// Whether the group has records.
fn has_records(group: &GroupPlan) -> bool
    ensures { result ≡ list_any (λ t. t.repeated) group.now.signals.items }
{
    group.signals.iter().any(|signal| signal.is_repeated())
}

// Whether the second group has records, and they stand otherwise.
fn has_other_records(heard: &GroupPlan, sent: &GroupPlan) -> bool
    ensures { result ≡ has_other_records heard.now sent.now }
{
    has_records(sent) && !same_byte(sent.every, heard.every)
}

fn have_other_layouts(heard: &GroupPlan, sent: &GroupPlan) -> bool
    ensures { result ≡ have_other_layouts heard.now sent.now }
{
    heard.length < sent.length
        || sent.most < heard.most
        || has_other_selector(heard, sent)
        || has_other_records(heard, sent)
}

/// Whether the forward copies, and a message of the one group needn't be one of the other.
pub fn copies_other_layout(vehicle: &Vehicle, forward: &Forward) -> bool
    ensures { result ≡ copies_other_layout vehicle.now forward.now }
{
    if !copies(forward) {
        return false;
    }
    let Some(heard) = group_at(&vehicle.buses, forward.input) else {
        return false;
    };
    match group_at(&vehicle.buses, forward.output) {
        Some(sent) => have_other_layouts(heard, sent),
        None => false,
    }
}
