//! What tables name, and what names them.
ghost use Rattle.std.specs.Prelude.{◌≡◌, map, position};
ghost use Rattle.std.specs.List.{list_any};
ghost use Rattle.std.specs.Str.{bytes_eq};
ghost use Rattle.j39_vehicle.specs.LabelsSeen.{label_faults, is_label_among, repeated_faults};
ghost use Rattle.j39_toml.specs.Outcome.{Gives};

use super::{Key, Table, VehicleError};
use crate::file::{BusTable, GatewayTable, SignalTable};
use j39_toml::{Cause, refused};

/// What has a label that no other one has.
pub trait HasName {
    ghost use Rattle.j39_vehicle.specs.LabelsSeen.{Named};

    ghost name: { Self → Named };

    fn label_text(&self) -> &str
        ensures { result.now ≡ (name self.now).label };
}

impl HasName for BusTable {
    ghost use Rattle.j39_vehicle.specs.BusTables.{named_bus};

    ghost name = { named_bus };

    fn label_text(&self) -> &str {
        self.label.as_str()
    }
}

impl HasName for GatewayTable {
    ghost use Rattle.j39_vehicle.specs.GatewayTables.{named_gateway};

    ghost name = { named_gateway };

    fn label_text(&self) -> &str {
        self.label.as_str()
    }
}

impl HasName for SignalTable {
    ghost use Rattle.j39_vehicle.specs.SignalTables.{named_signal};

    ghost name = { named_signal };

    fn label_text(&self) -> &str {
        self.written.as_str()
    }
}

fn is_taken<T: HasName>(items: &[T], label: &str) -> bool
    ensures { result ≡ list_any (λ x. bytes_eq (T.name x).label label.now) items.now }
{
    items.iter().any(|item| item.label_text() == label)
}

/// Whether one of the items has the label.
#[tactic(auto, using(crate::proofs::Names::is_taken_view))]
pub fn has_label<T: HasName>(items: &[T], label: &str) -> bool
    ensures { result ≡ is_label_among (map T.name items.now) label.now }
{
    is_taken(items, label)
}

/// Refuses a label that one of the items has.
#[tactic(auto, unfolding(crate::specs::LabelsSeen::repeated_faults))]
pub fn untaken<T: HasName>(
    items: &[T],
    label: &str,
    table: Table,
    key: Key,
) -> Result<(), VehicleError>
    ensures { Gives result (repeated_faults table key (map T.name items.now) label.now) (λ _. Unit {0}) }
{
    if has_label(items, label) {
        Err(refused(Cause::Repeated, table, key))
    } else {
        Ok(())
    }
}

/// Refuses a text that names nothing.
#[tactic(auto, unfolding(crate::specs::LabelsSeen::label_faults))]
pub fn known(is_known: bool, table: Table, key: Key) -> Result<(), VehicleError>
    ensures { Gives result (label_faults table key is_known) (λ _. Unit {0}) }
{
    if is_known {
        Ok(())
    } else {
        Err(refused(Cause::UnknownLabel, table, key))
    }
}

/// The place of the first item with a label.
pub fn first_place<T: HasName>(items: &[T], label: &str) -> Option<usize>
    ensures { result ≡ position (λ x. bytes_eq (T.name x).label label.now) items.now }
{
    items.iter().position(|item| item.label_text() == label)
}
