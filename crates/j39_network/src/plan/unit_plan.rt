//! A unit of a plan.
ghost use Rattle.std.specs.Prelude.{◌≡◌, ◌^◌, ◌%◌, ◌<◌, ◌≤◌, true, false, IsTrue};
ghost use Rattle.j39_id.specs.Addresses.{null_address};
ghost use Rattle.j39_id.specs.Name.{is_arbitrary};
ghost use Rattle.j39_id.specs.LabelForm.{is_unit_label};

use super::{Queue, Way};
use j39_id::{Address, Label, Name};

/// An electronic unit.
#[derive(Clone, Copy)]
pub struct UnitPlan {
    /// 1 to 32 ASCII letters, digits and `_`, and not `all`.
    pub label: Label,
    /// The preferred address.
    pub address: Address,
    /// Its NAME. Of a unit of any serial number the identity number, bits 0 to 20, is 0.
    pub name: Name,
    /// Whether each vehicle has a box of its own here, with a serial number of its own.
    pub any_identity: bool,
    pub way: Way,
    /// How many packets the unit takes in a row, 1 to 255.
    pub window: u8,
    /// How its controller chooses among frames that wait.
    pub queue: Queue,
    /// Whether the unit claims its address. One that doesn't hears claims and does nothing, and it may not choose.
    pub claims: bool,
    pub ghost label_form: { IsTrue (is_unit_label label.bytes) },
    pub ghost address_range: { address < null_address },
    pub ghost name_range: { name < 2 ^ 64 },
    pub ghost number_absent: { any_identity ≡ true → name % 2 ^ 21 ≡ 0 },
    pub ghost window_positive: { 1 ≤ window },
    pub ghost window_range: { window ≤ 255 },
    pub ghost silent_stays: { claims ≡ false → is_arbitrary name ≡ false },
}
